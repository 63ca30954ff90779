//! Benches by their calls: commands that wait, counts, and moves.

use crate::commands::apply;
use ssa_answers::change::Command;
use ssa_answers::fault::Fault;
use ssa_bench::bench::Bench;
use ssa_bench::prepared::Counts;
use ssa_reverse::depth::Depth;
use ssa_samples::sample::{bench, json, schema, web};
use std::alloc::Global;
use std::test::Fail;

const IMAGE: &str = ",\"spec\":{\"image\":\"a:1\"}";

// Prepares a command, and carries it out: how many managers it tells of before and after, and how
// many commands the past has before and after.
fn prepare_and_commit(
    alloc: Global,
    bench: &mut Bench,
    command: Command,
) -> Result<[usize; 4], Fail> {
    let prepared = bench.prepare(alloc, command)?;
    let told = prepared.changed().managers;
    let before = bench.past_len();
    let changed = bench.commit(prepared)?;
    Ok([told, changed.managers, before, bench.past_len()])
}

#[test]
fn prepared_commands_wait(rt: HostRuntime) -> Result<(), Fail> {
    let command = apply(rt.alloc(), IMAGE)?;
    let mut bench = bench(rt.alloc())?;
    let told = prepare_and_commit(rt.alloc(), &mut bench, command);
    drop(bench);
    assert_eq!(rt; told?, [1, 1, 0, 1]);
    Ok(())
}

// Carries out a command: how many managers and paths there are then.
fn execute(alloc: Global, bench: &mut Bench, command: Command) -> Result<(usize, usize), Fail> {
    bench.execute(alloc, command)?;
    Ok(bench.counts())
}

// How many commands can be undone and redone after a move.
fn after(moved: Result<Counts, Fault>) -> Result<(usize, usize), Fail> {
    let counts = moved?;
    Ok((counts.past, counts.future))
}

// An Apply, a Strip, an undo and a redo: what each tells.
fn walk(alloc: Global, bench: &mut Bench) -> Result<[(usize, usize); 4], Fail> {
    Ok([
        execute(alloc, bench, apply(alloc, IMAGE)?)?,
        execute(alloc, bench, Command::Strip)?,
        after(bench.undo())?,
        after(bench.redo())?,
    ])
}

// The bench of the object without further members, that keeps so many commands.
fn deep(alloc: Global, depth: u16) -> Result<Bench, Fail> {
    let depth = Depth::new(depth).ok_or("no depth")?;
    let object = json(alloc, web(alloc, "", "")?.as_str())?;
    Ok(Bench::with_depth(alloc, schema(alloc)?, object, depth)?)
}

// An Apply and two Strips, and undo as far as it goes: how many commands can be undone after each.
fn beyond(alloc: Global, bench: &mut Bench) -> Result<([usize; 3], [bool; 3]), Fail> {
    let first = execute_counted(alloc, bench, apply(alloc, IMAGE)?)?;
    let second = execute_counted(alloc, bench, Command::Strip)?;
    let third = execute_counted(alloc, bench, Command::Strip)?;
    let undone = [
        bench.undo().is_ok(),
        bench.undo().is_ok(),
        bench.undo().is_ok(),
    ];
    Ok(([first, second, third], undone))
}

// Carries out a command: how many can be undone then.
fn execute_counted(alloc: Global, bench: &mut Bench, command: Command) -> Result<usize, Fail> {
    bench.execute(alloc, command)?;
    Ok(bench.past_len())
}

#[test]
fn commands_beyond_the_depth_forget(rt: HostRuntime) -> Result<(), Fail> {
    let mut bench = deep(rt.alloc(), 2)?;
    let told = beyond(rt.alloc(), &mut bench);
    let depth = bench.depth().number();
    drop(bench);
    assert_eq!(rt; told?, ([1, 2, 2], [true, true, false]));
    assert_eq!(rt; depth, 2);
    Ok(())
}

// The number of the depth that a number makes, 0 where it makes none.
fn depth_of(number: u16) -> usize {
    match Depth::new(number) {
        Some(depth) => depth.number(),
        None => 0,
    }
}

#[test]
fn depths_are_from_1_to_1000(rt: HostRuntime) {
    let depths = [
        depth_of(0),
        depth_of(1),
        depth_of(1_000),
        depth_of(1_001),
        depth_of(u16::MAX),
    ];
    assert_eq!(rt; depths, [0, 1, 1_000, 0, 0]);
}

#[test]
fn commands_and_moves_are_counted(rt: HostRuntime) -> Result<(), Fail> {
    let mut bench = bench(rt.alloc())?;
    let told = walk(rt.alloc(), &mut bench);
    drop(bench);
    // The paths are the image and `spec`.
    assert_eq!(rt; told?, [(1, 2), (0, 2), (1, 1), (2, 0)]);
    Ok(())
}
