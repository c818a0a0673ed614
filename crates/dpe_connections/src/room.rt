//! What a worker works in.
use dpe_io::Packet;
use std::alloc::{AllocError, Global};

/// The payload of a command, and its reply.
#[derive(Drop)]
pub(crate) struct Buffers {
    pub(crate) payload: [u8; 4096],
    pub(crate) reply: Packet,
}

/// The buffers of one worker.
#[derive(Drop)]
pub struct Room {
    pub(crate) buffers: Box<Buffers>,
}

impl Room {
    /// Takes the buffers, about 8 kB: all the memory that serving ever uses. It may answer want of memory; no clause: what
    /// lies in the buffers is never told.
    pub fn make(alloc: Global) -> Result<Room, AllocError> {
        let buffers = Box::new(
            alloc,
            Buffers {
                payload: [0; 4096],
                reply: Packet::new(),
            },
        )?;
        Ok(Room { buffers })
    }
}
