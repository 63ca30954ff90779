//! What was read of the objects and lists of a text that have not ended.
ghost use Rattle.std.specs.Prelude.{◌≡◌, ◌≤◌, [], ◌++◌, length, take, drop, OnOk};

use crate::value::Json;
use ssa_members::Name;
use std::alloc::{AllocError, Global};

// How many members of one object, or items of one list, wait at most.
const MOST_WAITING: usize = 32;

// Members and items that were read, those of inner objects and lists behind those of outer ones. They wait here until
// their object or list ends, which then takes room for just as many, or until they are many.
#[derive(Drop)]
pub(crate) struct Waiting {
    pub(crate) pairs: Vec<(Name, Json)>,
    pub(crate) items: Vec<Json>,
}

impl Waiting {
    // Takes no memory.
    pub(crate) fn new(alloc: Global) -> Waiting
        ensures pairs { result.pairs.items ≡ [] }
        ensures items { result.items.items ≡ [] }
    {
        Waiting {
            pairs: Vec::new(alloc),
            items: Vec::new(alloc),
        }
    }

    // Nothing waits any more.
    pub(crate) fn clear(&mut self)
        ensures pairs { self.new.pairs.items ≡ [] }
        ensures items { self.new.items.items ≡ [] }
    {
        self.pairs.clear();
        self.items.clear();
    }
}

// Moves those that wait from a place on behind those that were found.
pub(crate) fn move_behind<T>(
    waiting: &mut Vec<T>,
    start: usize,
    found: &mut Vec<T>,
) -> Result<(), AllocError>
where
    T: Drop,
    requires { start ≤ length waiting.old.items }
    ensures found { OnOk result (found.new.items ≡ found.old.items ++ drop start waiting.old.items) }
    ensures waiting { OnOk result (waiting.new.items ≡ take start waiting.old.items) }
{
    let mut tail = waiting.split_off(start)?;
    if found.is_empty() {
        *found = tail;
        return Ok(());
    }
    found.append(&mut tail)
}

// The same where they are many. Those that were found and those that wait behind them are together as before, and so
// are those that wait before the place.
#[inline(always)]
pub(crate) fn move_many<T>(
    waiting: &mut Vec<T>,
    start: usize,
    found: &mut Vec<T>,
) -> Result<(), AllocError>
where
    T: Drop,
    requires { start ≤ length waiting.old.items }
    ensures all { OnOk result (found.new.items ++ drop start waiting.new.items ≡ found.old.items ++ drop start waiting.old.items) }
    ensures within { OnOk result (start ≤ length waiting.new.items) }
    ensures outer { OnOk result (take start waiting.new.items ≡ take start waiting.old.items) }
{
    if waiting.len() - start < MOST_WAITING {
        return Ok(());
    }
    move_behind(waiting, start, found)
}
