// What the environment says of a limit, told by an environment of one variable.
ghost use Rattle.std.specs.Prelude.{◌≤◌, IfOk, length};
ghost use Rattle.std.specs.Io.{WritesAtMost};

use crate::files::tell;
use crate::reports::MANUAL;
use dpe_io::WriteSink;
use dpe_unix::idle_limit;
use std::env::FillError;
use std::rt::Env;
use std::time::Duration;

// The variable's value, where it is there.
#[derive(Drop)]
struct OneVariable(Option<&'static [u8]>);

impl Env for OneVariable {
    fn arg(&self, _place: usize, _room: &mut [u8]) -> Result<usize, FillError> {
        Err(FillError::NotPresent)
    }

    fn var(&self, name: &str, room: &mut [u8]) -> Result<usize, FillError> {
        let Some(value) = self.0 else {
            return Err(FillError::NotPresent);
        };
        if name != "DPE_IDLE_SECONDS" {
            return Err(FillError::NotPresent);
        }
        if value.len() > room.len() {
            return Err(FillError::TooLong);
        }
        room[..value.len()].copy_from_slice(value);
        Ok(value.len())
    }

    fn var_at(&self, _place: usize, _room: &mut [u8]) -> Result<usize, FillError> {
        Err(FillError::NotPresent)
    }
}

// The limit that a value gives, and whether anything was said of it.
fn limit_of(value: Option<&'static [u8]>) -> (Option<Duration>, bool) {
    let mut room = [0; 256];
    let mut errors = WriteSink::new(&mut room[..]);
    let limit = idle_limit(&OneVariable(value), &mut errors, &MANUAL);
    drop(errors);
    (limit, room[0] != 0)
}

// Whether a value gives a limit of so many seconds, in silence.
fn is_limit(value: &'static [u8], seconds: u64) -> bool {
    limit_of(Some(value)) == (Some(Duration::from_secs(seconds)), false)
}

/// Values that are limits, and values that are none.
pub(crate) fn try_limits<P: Print>(rt: &P) {
    tell(
        rt,
        "with no variable there is no limit",
        limit_of(None) == (None, false),
    );
    tell(rt, "one second is a limit", is_limit(b"1", 1));
    tell(rt, "and a day", is_limit(b"86400", 86_400));
    let faulty: [&'static [u8]; 9] = [
        b"0",
        b"86401",
        b"01",
        b"+5",
        b"",
        b"5 ",
        b"ten",
        b"100000000",
        b"\xff",
    ];
    for value in faulty {
        tell(
            rt,
            "a faulty value is told, and no limit",
            limit_of(Some(value)) == (None, true),
        );
    }
}
