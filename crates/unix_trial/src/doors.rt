use crate::files::{gives, tell};
use dpe_io::{Dock, Door, House, Sink};
use dpe_unix::{FileDock, UnixDoor, UnixHouse, UnixLink};
use std::fs::{File, Files};
use std::net::Net;
use std::os::unix::net::UnixListener;

// Bytes go both ways.
fn try_both_ways<P: Print>(rt: &P, link: &mut UnixLink, conn: &mut UnixLink) {
    let asked = link.write(b"ask") == Ok(3) && link.flush() == Ok(());
    tell(rt, "a link takes bytes", asked);
    tell(rt, "its connection gives them", gives(conn, b"ask"));
    tell(
        rt,
        "a connection takes bytes",
        conn.write(b"answer") == Ok(6),
    );
    tell(rt, "and none", conn.write(b"") == Ok(0));
    tell(rt, "its link gives them", gives(link, b"answer"));
}

// The other end is closed.
fn try_a_closed_end<P: Print>(rt: &P, conn: &mut UnixLink) {
    tell(
        rt,
        "behind a closed link a connection gives its end",
        gives(conn, &[]),
    );
    tell(rt, "and takes nothing", conn.write(b"late").is_err());
    tell(
        rt,
        "which is counted",
        conn.read_faults() == 0 && conn.write_faults() == 1,
    );
}

// A link connects to a door, and bytes go both ways until it is closed.
fn try_a_door<P, R>(rt: &P, dock: &mut FileDock<R>, door: &mut UnixDoor)
where
    P: Print,
    R: Files<File = File> + Net + Drop,
{
    let Ok(mut link) = dock.link("door") else {
        return;
    };
    if let Ok(Some(mut conn)) = door.next() {
        try_both_ways(rt, &mut link, &mut conn);
        dock.take_link(0, link);
        try_a_closed_end(rt, &mut conn);
        door.done(conn);
    }
}

/// A door, a link to it, and what stands there before and after.
pub(crate) fn try_a_link_and_a_door<P, R>(rt: &P, net: R)
where
    P: Print,
    R: Files<File = File> + Net + Copy + Drop,
{
    let mut house = UnixHouse::new(net, None);
    let mut dock = FileDock::new(net, None);
    tell(
        rt,
        "nobody listens before a door is there",
        dock.link("door").is_err(),
    );
    if let Ok(mut door) = house.door("door") {
        tell(
            rt,
            "no door is made where a file stands",
            house.door("door").is_err(),
        );
        try_a_door(rt, &mut dock, &mut door);
        house.take_door(0, door);
    }
    tell(
        rt,
        "nobody listens once it is closed",
        dock.link("door").is_err(),
    );
}

/// A listener that doesn't wait fails where no connection waits.
pub(crate) fn try_a_listener_that_does_not_wait<R>(rt: &R)
where
    R: Print + Files<File = File> + Net,
{
    let Ok(listener) = UnixListener::bind(rt, "hasty") else {
        return;
    };
    if listener.set_nonblocking(true).is_ok() {
        let mut door = UnixDoor::new(listener, None);
        tell(rt, "a failed accept is told", door.next().is_err());
        tell(rt, "and counted", door.faults() == 1);
    }
}
