//! Tests of sets of paths beside sorted lists of numbers.
ghost use Rattle.std.specs.Prelude.{◌<◌};

use crate::support::push_element;
use ssa_path::field_set::FieldSet;
use ssa_path::path::Path;
use std::alloc::{AllocError, Global};
use std::test::Fail;

// A path of at most three elements by three digits from 1 to 4, in the order of the paths.
fn path_of(alloc: Global, code: u64) -> Result<Path, Fail> {
    let mut elements = Vec::new(alloc);
    for digit in [code / 25 % 5, code / 5 % 5, code % 5] {
        let text = match digit {
            0 => continue,
            1 => "f:a",
            2 => r#"k:{"a":1}"#,
            3 => "v:10",
            _ => "v:9",
        };
        push_element(alloc, &mut elements, text)?;
    }
    Ok(Path::new(elements))
}

// The next number of a fixed run below the bound.
fn next(state: &mut u64, bound: u64) -> u64
    requires { 0 < bound }
    ensures { result < bound }
{
    *state = state
        .wrapping_mul(6364136223846793005)
        .wrapping_add(1442695040888963407);
    (*state >> 33) % bound
}

// The code of some path, with no digit behind a 0.
fn some_code(state: &mut u64) -> u64 {
    let first = 1 + next(state, 4);
    let second = 1 + next(state, 4);
    let third = 1 + next(state, 4);
    match next(state, 4) {
        0 => 0,
        1 => first * 25,
        2 => first * 25 + second * 5,
        _ => first * 25 + second * 5 + third,
    }
}

fn some_codes(alloc: Global, state: &mut u64) -> Result<Vec<u64>, AllocError> {
    let mut codes = Vec::new(alloc);
    for _ in 0..next(state, 12) {
        codes.push(some_code(state))?;
    }
    codes.sort()?;
    codes.dedup();
    Ok(codes)
}

// Puts a path into a set, twice.
fn put_twice(alloc: Global, set: &mut FieldSet, path: &Path) -> Result<(), AllocError> {
    set.insert(alloc, path)?;
    set.insert(alloc, path)
}

// Puts these paths into a set, from the last to the first, each twice.
fn put_all(alloc: Global, set: &mut FieldSet, codes: &[u64]) -> Result<(), Fail> {
    for code in codes.iter().rev() {
        put_twice(alloc, set, &path_of(alloc, *code)?)?;
    }
    Ok(())
}

// Two sets, and the codes of their paths.
#[derive(Drop)]
struct Sets {
    own: Vec<u64>,
    others: Vec<u64>,
    set: FieldSet,
    other: FieldSet,
}

// Puts the paths of their codes into both sets.
fn fill(alloc: Global, sets: &mut Sets) -> Result<(), Fail> {
    put_all(alloc, &mut sets.set, &sets.own)?;
    put_all(alloc, &mut sets.other, &sets.others)
}

// Two sets without paths yet, and the codes of some.
fn some_sets(alloc: Global, state: &mut u64) -> Result<Sets, AllocError> {
    let own = some_codes(alloc, state)?;
    let others = some_codes(alloc, state)?;
    Ok(Sets {
        own,
        others,
        set: FieldSet::new(alloc),
        other: FieldSet::new(alloc),
    })
}

// Whether these are the paths of these codes, and the set has each.
fn are_in(alloc: Global, set: &FieldSet, paths: &[Path], codes: &[u64]) -> Result<bool, Fail> {
    let mut are_in = paths.len() == codes.len();
    for (path, code) in paths.iter().zip(codes.iter()) {
        are_in = are_in && path.order(&path_of(alloc, *code)?).is_eq() && set.has(path);
    }
    Ok(are_in)
}

// Whether the set has just these paths.
fn holds(alloc: Global, set: &FieldSet, codes: &[u64]) -> Result<bool, Fail> {
    let is_as_large = set.len() == codes.len() && set.is_empty() == codes.is_empty();
    Ok(is_as_large && are_in(alloc, set, &set.paths(alloc)?, codes)?)
}

// Whether the path of one code begins that of another.
fn begins(code: u64, other: u64) -> bool {
    if code == 0 {
        true
    } else if code % 25 == 0 {
        code / 25 == other / 25
    } else if code % 5 == 0 {
        code / 5 == other / 5
    } else {
        code == other
    }
}

// Whether the code is one of these or, where `or_above` says so, begins one of them.
fn is_among(code: u64, codes: &[u64], or_above: bool) -> bool {
    for other in codes {
        if code == *other || or_above && begins(code, *other) {
            return true;
        }
    }
    false
}

// Whether all codes are among the others.
fn are_among(codes: &[u64], others: &[u64]) -> bool {
    for code in codes {
        if !is_among(*code, others, false) {
            return false;
        }
    }
    true
}

// The codes that are among the others or, where `or_above` says so, begin one of them, or those that are and do not.
fn kept(alloc: Global, sets: &Sets, or_above: bool, is_kept: bool) -> Result<Vec<u64>, AllocError> {
    let mut kept = Vec::new(alloc);
    for code in &sets.own {
        if is_among(*code, &sets.others, or_above) == is_kept {
            kept.push(*code)?;
        }
    }
    Ok(kept)
}

// Puts the codes of both sets into one list that rises.
fn put_either(sets: &Sets, either: &mut Vec<u64>) -> Result<(), AllocError> {
    either.extend_from_slice(&sets.own)?;
    either.extend_from_slice(&sets.others)?;
    either.sort()?;
    either.dedup();
    Ok(())
}

fn is_union(alloc: Global, sets: &Sets, union: &FieldSet) -> Result<bool, Fail> {
    let mut either = Vec::new(alloc);
    put_either(sets, &mut either)?;
    Ok(holds(alloc, &sets.set, &sets.own)? && holds(alloc, union, &either)?)
}

fn does_union_agree(alloc: Global, sets: &Sets) -> Result<bool, Fail> {
    let union = sets.set.union(alloc, &sets.other)?;
    is_union(alloc, sets, &union)
}

// Whether two sets have the paths of these codes and of those, and are the same where the codes are.
fn hold(
    alloc: Global,
    first: &FieldSet,
    second: &FieldSet,
    codes: &[u64],
    others: &[u64],
) -> Result<bool, Fail> {
    let is_same = first.is_same(second) == (codes == others);
    Ok(is_same && holds(alloc, first, codes)? && holds(alloc, second, others)?)
}

// Whether a part of the first set has what is among the others or, where `or_above` says so, begins one of them, and another
// part has the rest.
fn are_parts(
    alloc: Global,
    sets: &Sets,
    part: &FieldSet,
    rest: &FieldSet,
    or_above: bool,
) -> Result<bool, Fail> {
    let codes = kept(alloc, sets, or_above, true)?;
    let others = kept(alloc, sets, or_above, false)?;
    let are_within = part.is_within(&sets.set) && rest.is_within(&sets.set);
    Ok(are_within && hold(alloc, part, rest, &codes, &others)?)
}

fn do_minus_and_meet_agree(alloc: Global, sets: &Sets) -> Result<bool, Fail> {
    let minus = sets.set.minus(alloc, &sets.other)?;
    let meet = sets.set.meet(alloc, &sets.other)?;
    let do_meet = sets.set.meets(&sets.other);
    Ok(
        do_meet != meet.is_empty()
            && meet.is_within(&sets.other)
            && are_parts(alloc, sets, &meet, &minus, false)?,
    )
}

fn do_parts_apart_agree(alloc: Global, sets: &Sets) -> Result<bool, Fail> {
    let over_some = sets.set.over(alloc, &sets.other)?;
    let over_none = sets.set.without_over(alloc, &sets.other)?;
    let mut left = sets.set.copy(alloc)?;
    left.remove_over(&sets.other);
    Ok(left.is_same(&over_none) && are_parts(alloc, sets, &over_some, &over_none, true)?)
}

// Whether the first set is told to lie within the other so, at whichever place a path is looked for first.
fn lies_within_from_each(sets: &Sets, are_within: bool) -> bool {
    for place in 0..4 {
        let mut near = place;
        if sets.set.is_within_near(&sets.other, &mut near) != are_within {
            return false;
        }
    }
    true
}

// Whether the sets answer of some path as the lists do.
fn do_looks_agree(alloc: Global, state: &mut u64, sets: &Sets) -> Result<bool, Fail> {
    let code = some_code(state);
    let path = path_of(alloc, code)?;
    let is_there = is_among(code, &sets.own, false);
    let is_above = is_among(code, &sets.own, true);
    let are_same = sets.own.as_slice() == sets.others.as_slice();
    let are_within = are_among(&sets.own, &sets.others);
    Ok(
        sets.set.has(&path) == is_there
            && sets.set.has_at_or_below(&path) == is_above
            && sets.set.is_same(&sets.other) == are_same
            && sets.set.is_within(&sets.other) == are_within
            && lies_within_from_each(sets, are_within),
    )
}

// Whether two sets and what is made of them hold what the sorted lists do.
fn do_all_agree(alloc: Global, state: &mut u64, sets: &Sets) -> Result<bool, Fail> {
    Ok(
        does_union_agree(alloc, sets)?
            && do_minus_and_meet_agree(alloc, sets)?
            && do_parts_apart_agree(alloc, sets)?
            && do_looks_agree(alloc, state, sets)?,
    )
}

// The same of two sets that are filled first.
fn do_filled_agree(alloc: Global, state: &mut u64, sets: &mut Sets) -> Result<bool, Fail> {
    fill(alloc, sets)?;
    do_all_agree(alloc, state, sets)
}

// The same of some sets.
fn agree(alloc: Global, state: &mut u64) -> Result<bool, Fail> {
    let mut sets = some_sets(alloc, state)?;
    do_filled_agree(alloc, state, &mut sets)
}

#[test]
fn sets_agree_with_sorted_lists(rt: HostRuntime) -> Result<(), Fail> {
    let mut state = 1;
    for i in 0..1000 {
        assert!(rt; agree(rt.alloc(), &mut state)?, "at {i}");
    }
    Ok(())
}
