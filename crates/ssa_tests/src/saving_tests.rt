//! Bench files: what is written, that it is handed on, and what a full device is left with.

use crate::commands::apply;
use ssa_bench::bench::Bench;
use ssa_json::sink::OfWriter;
use ssa_lines::saving::SaveFault;
use ssa_samples::bench_files::bench_file;
use ssa_samples::marks::Marks;
use ssa_samples::sample::{IMAGE, bench};
use std::alloc::Global;
use std::test::Fail;

// Applies an image, and saves the bench: what then stands in the device.
fn apply_and_save(alloc: Global, bench: &mut Bench) -> Result<Marks, Fail> {
    bench.execute(alloc, apply(alloc, IMAGE)?)?;
    let mut sink = Marks::new(alloc);
    bench.save(alloc, &mut sink)?;
    Ok(sink)
}

#[test]
fn a_saved_bench_is_flushed(rt: HostRuntime) -> Result<(), Fail> {
    let flushed = [bench_file(rt.alloc())?.as_str(), "|"].concat(rt.alloc())?;
    let mut bench = bench(rt.alloc())?;
    let device = apply_and_save(rt.alloc(), &mut bench);
    drop(bench);
    assert!(rt; device?.bytes() == flushed.as_bytes());
    Ok(())
}

// Whether saving tells that the device has failed.
fn fails(alloc: Global, bench: &mut Bench, room: &mut [u8]) -> bool {
    let mut sink = OfWriter::new(room);
    matches!(bench.save(alloc, &mut sink), Err(SaveFault::Io))
}

#[test]
fn a_full_device_is_told(rt: HostRuntime) -> Result<(), Fail> {
    let mut room = [0u8; 9];
    let mut bench = bench(rt.alloc())?;
    let has_failed = fails(rt.alloc(), &mut bench, &mut room[..]);
    drop(bench);
    assert!(rt; has_failed);
    assert_eq!(rt; room, *b"{\"depth\":");
    Ok(())
}
