// Two threads at one desk over a book.
use dpe_journal::{Book, Call};
use shared_book::{act_both, act_often, open};
use std::sync::Wait;
use std::thread::Threads;

static INITIALIZE: [u8; 6] = [0x82, 0, 0x43, 0x82, 7, 0xa0];

// A rotation of the handle with serial 1 and random bytes of zeros.
static ROTATE: [u8; 24] = [
    0x82, 0, 0x55, 0x82, 14, 0xa1, 1, 0x50, 0, 0, 0, 0, 0, 0, 0, 1, 0, 0, 0, 0, 0, 0, 0, 0,
];

// The reply with the handle of serial 2, and that there is no such handle.
static SECOND_HANDLE: [u8; 24] = [
    0x82, 0, 0x55, 0x82, 0, 0xa1, 1, 0x50, 0, 0, 0, 0, 0, 0, 0, 2, 0, 0, 0, 0, 0, 0, 0, 0,
];

static NO_SUCH_HANDLE: [u8; 6] = [0x82, 0, 0x43, 0x82, 17, 0xa0];

// How often each caller and each reply stands in a book behind its first entry: callers 0 and 1, and the second handle and
// its refusal.
fn counts(book: &Book) -> [u32; 4] {
    let mut counts = [0u32; 4];
    for at in 1..book.length() {
        let entry = book.entry(at);
        let reply = entry.reply.bytes();
        let is_one_of = [
            entry.caller == 0,
            entry.caller == 1,
            reply == SECOND_HANDLE.as_slice(),
            reply == NO_SUCH_HANDLE.as_slice(),
        ];
        for (count, is_it) in counts.iter_mut().zip(is_one_of) {
            *count = count.wrapping_add(u32::from(is_it));
        }
    }
    counts
}

/// Two threads rotate one handle. Whichever comes first, just the first rotation is accepted.
pub(crate) fn try_desk<R: Threads + Wait + Sync>(rt: &R, host: HostRuntime) {
    let Ok((desk, mut first)) = open(host.alloc(), &[0; 32], 1, 41) else {
        return;
    };
    let second = desk.split(&mut first, 1);
    let initialize = Call::new(0, 0, 0, &[0; 32], &INITIALIZE);
    let rotate = Call::new(0, 0, 0, &[0; 32], &ROTATE);
    act_often(rt, &desk, &mut first, &initialize, 1);
    let both = act_both(rt, &desk, first, second, &rotate, 20);
    let [first, second, accepted, refused] = counts(&desk.close(both));
    let _ = println!(host;
        "rotations by two threads {first} {second}, accepted {accepted}, refused {refused}"
    );
}
