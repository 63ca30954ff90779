//! How much the records of a history hold, counted by hand: before an undo and after it.

use crate::commands::{Way, command};
use ssa_bench::bench::Bench;
use ssa_samples::sample::bench;
use std::alloc::Global;
use std::test::Fail;

// Carries out a command.
fn carry_out(
    alloc: Global,
    bench: &mut Bench,
    second: &str,
    way: Way,
    who: &str,
    members: &str,
) -> Result<(), Fail> {
    let command = command(alloc, second, way, who, members)?;
    bench.execute(alloc, command)?;
    Ok(())
}

// Carries out commands: each a second, a way, a name and members.
fn carry_out_all(
    alloc: Global,
    bench: &mut Bench,
    commands: &[(&str, Way, &str, &str)],
) -> Result<(), Fail> {
    for (second, way, who, members) in commands {
        carry_out(alloc, bench, second, *way, who, members)?;
    }
    Ok(())
}

// How much a record holds, or 1,000 where there is none.
fn held(bench: &Bench, n: usize) -> usize {
    bench.record_size(n).unwrap_or(1_000)
}

// How much the record of the last of these commands holds, back and, after an undo, forth.
fn held_both_ways(
    alloc: Global,
    bench: &mut Bench,
    commands: &[(&str, Way, &str, &str)],
) -> Result<(usize, usize), Fail> {
    carry_out_all(alloc, bench, commands)?;
    let last = bench.past_len().saturating_sub(1);
    let back = held(bench, last);
    bench.undo()?;
    Ok((back, held(bench, last)))
}

// The same of a bench on which nothing else was carried out.
fn back_and_forth(
    alloc: Global,
    commands: &[(&str, Way, &str, &str)],
) -> Result<(usize, usize), Fail> {
    let mut bench = bench(alloc)?;
    held_both_ways(alloc, &mut bench, commands)
}

const THREE: &str = ",\"spec\":{\"replicas\":3}";

const ABC: &str =
    ",\"spec\":{\"ports\":[{\"name\":\"a\",\"port\":1},{\"name\":\"b\",\"port\":2},{\"name\":\"c\",\"port\":3}]}";

const AC: &str = ",\"spec\":{\"ports\":[{\"name\":\"a\",\"port\":1},{\"name\":\"c\",\"port\":3}]}";

const CBA: &str =
    ",\"spec\":{\"ports\":[{\"name\":\"c\",\"port\":3},{\"name\":\"b\",\"port\":2},{\"name\":\"a\",\"port\":1}]}";

#[test]
fn an_apply_puts_a_field_and_a_manager(rt: HostRuntime) -> Result<(), Fail> {
    let held = back_and_forth(rt.alloc(), &[("1", Way::Apply, "m1", THREE)]);
    // Back: `spec` is cut, and m1 gone. Forth: `spec` and its field, and m1 with one path.
    assert_eq!(rt; held?, (2, 4));
    Ok(())
}

#[test]
fn a_forced_apply_changes_a_leaf_and_takes_a_manager_out(rt: HostRuntime) -> Result<(), Fail> {
    let held = back_and_forth(
        rt.alloc(),
        &[
            ("1", Way::Apply, "m1", THREE),
            ("2", Way::Apply, "m2", THREE),
            ("4", Way::ForcedApply, "m1", ",\"spec\":{\"replicas\":5}"),
        ],
    );
    // The leaf and the moment; back m2 with one path comes, forth it is gone.
    assert_eq!(rt; held?, (4, 3));
    Ok(())
}

#[test]
fn an_item_goes_with_its_fields(rt: HostRuntime) -> Result<(), Fail> {
    let held = back_and_forth(
        rt.alloc(),
        &[("1", Way::Apply, "m1", ABC), ("2", Way::Update, "u", AC)],
    );
    // Back the item and its fields are put, forth it is cut; m1 gains or loses the three.
    assert_eq!(rt; held?, (6, 4));
    Ok(())
}

#[test]
fn items_change_their_order(rt: HostRuntime) -> Result<(), Fail> {
    let held = back_and_forth(
        rt.alloc(),
        &[("1", Way::Apply, "m1", ABC), ("2", Way::Update, "u", CBA)],
    );
    assert_eq!(rt; held?, (3, 3));
    Ok(())
}

#[test]
fn an_order_that_is_applied_is_held_alone(rt: HostRuntime) -> Result<(), Fail> {
    let held = back_and_forth(
        rt.alloc(),
        &[
            ("1", Way::Apply, "m1", ",\"spec\":{\"hosts\":[\"a\",\"b\"]}"),
            ("2", Way::Apply, "m1", ",\"spec\":{\"hosts\":[\"b\",\"a\"]}"),
        ],
    );
    // The two items, in the order before and in that after.
    assert_eq!(rt; held?, (2, 2));
    Ok(())
}

#[test]
fn an_item_comes_where_others_change_their_order(rt: HostRuntime) -> Result<(), Fail> {
    let held = back_and_forth(
        rt.alloc(),
        &[
            (
                "1",
                Way::Update,
                "u",
                ",\"spec\":{\"hosts\":[\"a\",\"b\",\"c\",\"d\"]}",
            ),
            (
                "2",
                Way::Apply,
                "m1",
                ",\"spec\":{\"hosts\":[\"d\",\"x\",\"a\"]}",
            ),
        ],
    );
    // Back the new item is cut, the four have their order, and m1 is gone. Forth the item is put, the five have theirs, and m1
    // comes with three paths.
    assert_eq!(rt; held?, (6, 10));
    Ok(())
}

#[test]
fn a_repeated_apply_holds_nothing(rt: HostRuntime) -> Result<(), Fail> {
    let held = back_and_forth(
        rt.alloc(),
        &[
            ("1", Way::Apply, "m1", THREE),
            ("9", Way::Apply, "m1", THREE),
        ],
    );
    assert_eq!(rt; held?, (0, 0));
    Ok(())
}

// How much each record of a bench holds after three commands, and that there are no more.
fn held_by_each(alloc: Global, bench: &mut Bench) -> Result<[usize; 4], Fail> {
    let commands = [
        ("1", Way::Apply, "m1", THREE),
        ("2", Way::Apply, "m2", THREE),
        ("9", Way::Apply, "m2", THREE),
    ];
    carry_out_all(alloc, bench, &commands)?;
    Ok([
        held(bench, 0),
        held(bench, 1),
        held(bench, 2),
        held(bench, 3),
    ])
}

// The same of a bench on which nothing else was carried out.
fn all_held(alloc: Global) -> Result<[usize; 4], Fail> {
    let mut bench = bench(alloc)?;
    held_by_each(alloc, &mut bench)
}

#[test]
fn records_stand_oldest_first(rt: HostRuntime) -> Result<(), Fail> {
    let held = all_held(rt.alloc());
    // The second command brings m2 alone, which is gone on the way back.
    assert_eq!(rt; held?, [2, 1, 0, 1_000]);
    Ok(())
}
