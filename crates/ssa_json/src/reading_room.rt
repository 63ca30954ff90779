//! The memory that reading a text takes besides its value.
use crate::waiting::Waiting;
use json::Scratch;
use std::alloc::Global;

/// Room for reading texts one after the other: what is found of a text while it is read. It is set up once, and kept from
/// one text to the next; what was read before tells nothing of what is read then.
///
/// It is 16 KB, and takes memory for as many bytes as the longest text has, and for up to 32 members of each object and 32
/// items of each list that stand in one another.
#[derive(Drop)]
pub struct ReadingRoom {
    pub(crate) scratch: Scratch,
    pub(crate) waiting: Waiting,
}

impl ReadingRoom {
    /// Takes no memory.
    pub fn new(alloc: Global) -> ReadingRoom {
        ReadingRoom {
            scratch: Scratch::new(alloc),
            waiting: Waiting::new(alloc),
        }
    }
}
