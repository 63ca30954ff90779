//! The examples on the first pages of the crates below, as `tools/fronts` finds them there.
use ssa_disk::{Disk, OfFiles};
use ssa_explain::push_members;
use ssa_program::Status;
use ssa_session::Ending;
use ssa_words::{Call, read_words};
use std::test::Fail;

#[test]
fn ssa_words_example(rt: HostRuntime) -> Result<(), Fail> {
    let call = read_words(rt.alloc(), &["undo", "web.bench"])?;
    assert_eq!(rt; call, Call::Undo { bench: "web.bench" });
    assert!(rt; read_words(rt.alloc(), &["undo"]).is_err());
    Ok(())
}

#[test]
fn ssa_explain_example(rt: HostRuntime) -> Result<(), Fail> {
    let mut text = Vec::new(rt.alloc());
    push_members(&mut text, &["spec", "a key"])?;
    assert_eq!(rt; text.as_slice(), br#".spec["a key"]"#.as_slice());
    Ok(())
}

#[test]
fn ssa_program_example(rt: HostRuntime) -> Result<(), Fail> {
    assert_eq!(rt; Status::Done.code(), 0);
    assert_eq!(rt; Status::from(Ending::Refused).code(), 1);
    Ok(())
}

#[test]
fn ssa_disk_example(rt: HostRuntime) -> Result<(), Fail> {
    let disk = OfFiles::new(&rt);
    let place = disk.find(rt.alloc(), "no_such.bench")?;
    assert!(rt; place.found.is_none());
    Ok(())
}
