//! Values under names, in a vector that is ordered by the names.
ghost use Rattle.std.specs.Prelude.{◌≡◌, ◌<◌, ◌↔◌, [], ℕ, length, IfOk, IfErr, IfSome, IsTrue, OnErr, OnOk, MatchOption, Some, None, option_copied};
ghost use Rattle.std.specs.BTreeMap.{insert_entry, is_at};
ghost use Rattle.std.specs.List.{remove, slice_index_or};
ghost use Rattle.std.specs.Map.{lookup, remove_entry, set_value};
ghost use Rattle.std.specs.Cmp.Lexicographic.{slice_cmp};
ghost use Rattle.std.specs.Ordering.{nat_cmp};
ghost use Rattle.std.specs.Prelude.{bytes_eq, string_bytes, string_cmp};
ghost use Rattle.ssa_members.specs.Members.{get, text_cmp, IsMadeOf, IsNameAt, IsPlaceOf, IsRising};

use crate::name::Name;
use crate::words::are_same;
use std::alloc::{AllocError, Global};
use std::cmp::Ordering;
use std::collections::BTreeMap;
use std::marker::Model;
use std::mem::replace;

// Of so few names each is looked at: most tell by their length that they are another.
const FEW: usize = 8;

/// Values under names, each name once, in the order of the names' bytes.
///
/// They stand in one vector, so few of them take little memory, and a name is found by halving, among few
/// by a look at each. A new name moves those behind it: many at once are put together by
/// [`of_pairs`](Members::of_pairs).
#[derive(Drop)]
pub struct Members<V> {
    entries: Vec<(Name, V)>,
}

impl<V> Model for Members<V> {
    ghost use Rattle.ssa_members.specs.Members.{Members as Seen, members_code, IsRising};

    ghost Value = { Seen V };

    ghost coded = { members_code V.code };

    ghost view = { λ m. record { entries = m.entries.items } };

    ghost invariant = { λ m. IsRising m.entries.items };
}

// Whether each name is below the next.
fn rises<V>(pairs: &[(Name, V)]) -> bool
    ensures { IsTrue result → IsRising pairs.now }
{
    let mut i: usize = 1;
    'pairs: while i < pairs.len() {
        if pairs[i - 1].0 >= pairs[i].0 {
            return false;
        }
        i += 1;
    }
    true
}

// The order of two names by their bytes. Most differ in the first one.
#[inline(always)]
fn order_names(name: &str, other: &str) -> Ordering
    ensures { result ≡ slice_cmp nat_cmp name.now other.now }
{
    if let ([first, ..], [other_first, ..]) = (name.as_bytes(), other.as_bytes()) {
        if first != other_first {
            return first.cmp(other_first);
        }
    }
    name.cmp(other)
}

// Whether both are one name. Most differ in their lengths, and bytes are compared only where these are the same.
#[inline(always)]
fn is_one_name(name: &str, other: &str) -> bool
    ensures { result ≡ bytes_eq name.now other.now }
{
    name.len() == other.len() && are_same(name.as_bytes(), other.as_bytes())
}

// Where the name stands, if it does, looked for among the names one after the other.
#[inline(always)]
fn scan<V>(entries: &[(Name, V)], name: &str) -> Option<usize>
    ensures { MatchOption result (lookup (is_at (text_cmp name.now)) entries.now ≡ None) (IsNameAt name.now entries.now) }
{
    for i in 0..entries.len() {
        if is_one_name(name, entries[i].0.as_str()) {
            return Some(i);
        }
    }
    None
}

// Where the name stands, if it does so near behind a place.
#[inline(always)]
fn scan_near<V>(entries: &[(Name, V)], near: usize, name: &str) -> Option<usize>
    ensures { IfSome result (IsNameAt name.now entries.now) }
{
    let start = near.min(entries.len());
    let end = entries.len().min(start + FEW);
    for place in start..end {
        if is_one_name(name, entries[place].0.as_str()) {
            return Some(place);
        }
    }
    None
}

// Takes out the entry at a place. Where it is the last one, none has to move.
#[inline(always)]
fn take_entry<V>(entries: &mut Vec<(Name, V)>, i: usize) -> (Name, V)
    requires { i < length entries.old.items }
    ensures value { result ≡ slice_index_or entries.old.items i result }
    ensures items { entries.new.items ≡ remove entries.old.items i }
{
    if i + 1 < entries.len() {
        return entries.remove(i);
    }
    let Some(last) = entries.pop() else {
        unreachable!("the place is inside");
    };
    last
}

impl<V> Members<V> {
    /// None. Takes no memory.
    pub fn new(alloc: Global) -> Members<V>
        ensures empty { result.entries ≡ [] }
    {
        Members {
            entries: Vec::new(alloc),
        }
    }

    /// How many there are.
    pub fn len(&self) -> usize
        ensures { result ≡ length self.now.entries }
    {
        self.entries.len()
    }

    /// Whether there are none.
    pub fn is_empty(&self) -> bool
        ensures { IsTrue result ↔ (length self.now.entries ≡ 0) }
    {
        self.entries.is_empty()
    }

    /// The names with their values, in the names' order.
    pub fn entries(&self) -> &[(Name, V)]
        ensures all { result.now ≡ self.now.entries }
        ensures ordered { IsRising self.now.entries }
    {
        self.entries.as_slice()
    }

    /// The names with their values, in the names' order.
    pub fn into_entries(self) -> Vec<(Name, V)>
        ensures all { result.items ≡ self.entries }
        ensures ordered { IsRising self.entries }
    {
        let Members { entries } = self;
        entries
    }

    // Where the name stands, or would stand.
    fn place(&self, name: &str) -> Result<usize, usize>
        ensures { IsPlaceOf name.now self.now.entries result }
    {
        self.entries
            .binary_search_by(|entry| order_names(entry.0.as_str(), name))
    }

    // Where the name stands, if it does.
    #[inline(always)]
    fn find(&self, name: &str) -> Option<usize>
        ensures { MatchOption result (get self.now name.now ≡ None) (IsNameAt name.now self.now.entries) }
    {
        if self.entries.len() <= FEW {
            return scan(&self.entries, name);
        }
        match self.place(name) {
            Ok(i) => Some(i),
            Err(_) => None,
        }
    }

    /// The value under a name.
    pub fn get(&self, name: &str) -> Option<&V>
        ensures value { option_copied result ≡ get self.now name.now }
    {
        match self.find(name) {
            Some(i) => Some(&self.entries[i].1),
            None => None,
        }
    }

    /// The value under a name, which is looked for first at a place and behind it: names that are asked for as they rise
    /// stand there.
    ///
    /// Where it stands there, the place becomes the one behind it, and else stays. What is told does not depend on it.
    pub fn get_near(&self, near: &mut usize, name: &str) -> Option<&V>
        ensures value { option_copied result ≡ get self.now name.now }
    {
        match scan_near(&self.entries, *near, name) {
            Some(i) => {
                *near = i + 1;
                Some(&self.entries[i].1)
            }
            None => self.get(name),
        }
    }

    /// Puts a value under a name, and gives the one that was there. On `Err` all is as it was.
    pub fn insert(&mut self, name: Name, value: V) -> Result<Option<V>, AllocError>
    where
        V: Drop,
        ensures old { IfOk result (λ old. old ≡ get self.old (string_bytes name)) }
        ensures entries { OnOk result (self.new.entries ≡ insert_entry string_cmp self.old.entries name value) }
        ensures err { OnErr result (self.new ≡ self.old) }
        ensures ordered { IsRising self.new.entries }
        ensures was_ordered { IsRising self.old.entries }
    {
        match self.place(name.as_str()) {
            Ok(i) => {
                drop(name);
                Ok(Some(replace(&mut self.entries[i].1, value)))
            }
            Err(i) => {
                self.entries.insert(i, (name, value))?;
                Ok(None)
            }
        }
    }

    /// Takes the value under a name out, where there is one.
    #[inline(always)]
    pub fn remove(&mut self, name: &str) -> Option<V>
    where
        V: Drop,
        ensures value { result ≡ get self.old name.now }
        ensures entries { self.new.entries ≡ remove_entry (is_at (text_cmp name.now)) self.old.entries }
        ensures ordered { IsRising self.new.entries }
        ensures was_ordered { IsRising self.old.entries }
    {
        match self.find(name) {
            Some(i) => {
                let (name, value) = take_entry(&mut self.entries, i);
                drop(name);
                Some(value)
            }
            None => None,
        }
    }

    /// Puts a value in the place of the one under a name, which it gives. Where there is none, the value
    /// comes back and all is as it was.
    pub fn replace(&mut self, name: &str, value: V) -> Result<V, V>
        ensures old { IfOk result (λ old. get self.old name.now ≡ Some old) }
        ensures entries { OnOk result (self.new.entries ≡ set_value (is_at (text_cmp name.now)) self.old.entries value) }
        ensures absent { IfErr result (λ v. (v ≡ value) × (get self.old name.now ≡ None) × (self.new ≡ self.old)) }
        ensures was_ordered { IsRising self.old.entries }
    {
        match self.find(name) {
            Some(i) => Ok(replace(&mut self.entries[i].1, value)),
            None => Err(value),
        }
    }

    /// Pairs whose names rise.
    pub fn of_rising(pairs: Vec<(Name, V)>) -> Members<V>
        requires { IsRising pairs.items }
        ensures { result.entries ≡ pairs.items }
    {
        Members { entries: pairs }
    }

    /// What all the pairs put in one after another leave: under each name the last value that comes with it.
    /// Pairs whose names rise stay where they are; of `n` others it takes about `n log n` comparisons.
    pub fn of_pairs(alloc: Global, pairs: Vec<(Name, V)>) -> Result<Members<V>, AllocError>
    where
        V: Drop,
        ensures { IfOk result (IsMadeOf pairs.items) }
    {
        if rises(&pairs) {
            return Ok(Members { entries: pairs });
        }
        Members::of_unordered(alloc, pairs)
    }

    // The same of pairs in any order. Members mostly come in order, and this takes much of the stack.
    #[inline(never)]
    fn of_unordered(alloc: Global, pairs: Vec<(Name, V)>) -> Result<Members<V>, AllocError>
    where
        V: Drop,
        ensures { IfOk result (IsMadeOf pairs.items) }
    {
        let sorted: BTreeMap<Name, V> = pairs.into_iter().collect(alloc)?;
        let mut entries = Vec::with_capacity(alloc, sorted.len())?;
        for entry in sorted {
            entries.push(entry)?;
        }
        Ok(Members { entries })
    }
}
