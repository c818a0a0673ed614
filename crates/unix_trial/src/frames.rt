// Frames over pairs of sockets, and connections whose other end is silent.
use crate::files::{byte_at, fails, gives, gives_places, tell};
use dpe_io::{Door, Sink, Source};
use dpe_link::{FrameFault, read_frame};
use dpe_unix::{LINK_AHEAD, UnixDoor, UnixLink};
use std::fs::{File, Files};
use std::io::Write;
use std::net::Net;
use std::os::unix::net::{UnixListener, UnixStream};
use std::time::Duration;

// Two frames, the second with an empty payload.
const FRAMES: [u8; 11] = [0, 0, 0, 3, b'a', b'b', b'c', 0, 0, 0, 0];

// A socket, and a link over the one that it is paired with.
fn pair<R: Net>(net: &R, limit: Option<Duration>) -> Option<(UnixStream, UnixLink)> {
    let (near, far) = UnixStream::pair(net).ok()?;
    Some((near, UnixLink::new(far, limit).ok()?))
}

// Whether one frame with this payload is read.
fn gives_frame<S: Source>(source: &mut S, payload: &[u8]) -> bool {
    let mut room = [0; 4096];
    match read_frame(source, &mut room) {
        Ok(Some(count)) => &room[..count] == payload,
        _ => false,
    }
}

// What comes in place of a frame.
fn fault_of<S: Source>(source: &mut S) -> Option<FrameFault> {
    read_frame(source, &mut [0; 4096]).err()
}

// Whether both frames are read, and then the end.
fn gives_both<S: Source>(source: &mut S) -> bool {
    gives_frame(source, b"abc") && gives_frame(source, b"") && gives(source, &[])
}

/// Frames that came at once, and byte by byte.
pub(crate) fn try_whole_frames<P: Print, R: Net>(rt: &P, net: &R) {
    if let Some((mut near, mut link)) = pair(net, None) {
        let sent = near.write_all(&FRAMES).is_ok();
        drop(near);
        tell(
            rt,
            "frames that were sent at once are read one by one",
            sent && gives_both(&mut link),
        );
    }
    if let Some((mut near, mut link)) = pair(net, None) {
        for byte in &FRAMES {
            let _ = near.write_all(&[*byte]);
        }
        drop(near);
        tell(
            rt,
            "so are those that were sent byte by byte",
            gives_both(&mut link),
        );
    }
}

/// A frame that is cut, one that is too long, and an end that is closed before it read what it got.
pub(crate) fn try_faulty_frames<P: Print, R: Net>(rt: &P, net: &R) {
    if let Some((mut near, mut link)) = pair(net, None) {
        let sent = near.write_all(&FRAMES[..9]).is_ok();
        drop(near);
        tell(
            rt,
            "a frame before a cut one is read",
            sent && gives_frame(&mut link, b"abc"),
        );
        tell(
            rt,
            "the cut one is told",
            fault_of(&mut link) == Some(FrameFault::Cut { have: 2 }),
        );
    }
    if let Some((mut near, mut link)) = pair(net, None) {
        let sent = near.write_all(&[0, 0, 16, 1, 7]).is_ok();
        tell(
            rt,
            "one that is too long is told",
            sent && fault_of(&mut link) == Some(FrameFault::TooLong { length: 4_097 }),
        );
        tell(
            rt,
            "and what is behind its head is left",
            gives(&mut link, &[7]),
        );
    }
    if let Some((near, mut link)) = pair(net, None) {
        let sent = link.write(b"unread") == Ok(6);
        drop(near);
        tell(
            rt,
            "an end that is closed abruptly is a failed read",
            sent && fault_of(&mut link) == Some(FrameFault::ReadFault) && link.read_faults() == 1,
        );
    }
}

/// More than is read at once.
pub(crate) fn try_a_long_stream<P: Print, R: Net>(rt: &P, net: &R) {
    let mut bytes = [0; LINK_AHEAD + 1_000];
    for (place, byte) in bytes.iter_mut().enumerate() {
        *byte = byte_at(place);
    }
    if let Some((mut near, mut link)) = pair(net, None) {
        let sent = near.write_all(&bytes).is_ok();
        drop(near);
        tell(
            rt,
            "more than is read at once comes whole and in order",
            sent && gives_places(&mut link, bytes.len()),
        );
    }
}

// Writes until a write fails, at most 1,000 times.
fn writes_in_vain<K: Sink>(sink: &mut K) -> bool {
    let piece = [0; 4096];
    for _ in 0..1_000 {
        if sink.write(&piece).is_err() {
            return true;
        }
    }
    false
}

/// Connections with a limit of a second.
pub(crate) fn try_a_limit<P: Print, R: Net>(rt: &P, net: &R) {
    let second = Some(Duration::from_secs(1));
    if let Some((mut near, mut link)) = pair(net, second) {
        tell(
            rt,
            "with a limit a silent end is a failed read",
            fails(&mut link),
        );
        tell(rt, "which is counted", link.read_faults() == 1);
        let sent = near.write_all(b"late").is_ok();
        tell(
            rt,
            "what comes later is read",
            sent && gives(&mut link, b"late"),
        );
        tell(
            rt,
            "an end that reads nothing is a failed write",
            writes_in_vain(&mut link) && link.write_faults() == 1,
        );
    }
}

/// A door that gives its connections a limit.
pub(crate) fn try_a_door_with_a_limit<P, R>(rt: &P, net: &R)
where
    P: Print,
    R: Files<File = File> + Net,
{
    let Ok(listener) = UnixListener::bind(net, "limited") else {
        return;
    };
    let mut door = UnixDoor::new(listener, Some(Duration::from_secs(1)));
    let Ok(near) = UnixStream::connect(net, "limited") else {
        return;
    };
    if let Ok(Some(mut conn)) = door.next() {
        tell(rt, "a door's limit binds its connection", fails(&mut conn));
        door.done(conn);
    }
    drop(near);
}
