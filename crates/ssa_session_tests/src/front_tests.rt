//! The example on the first page of `ssa_session`, as `tools/fronts` finds it there.

use ssa_json::{OfReader, OfWriter};
use ssa_samples::sample::bench;
use ssa_session::session;
use std::test::Fail;

#[test]
fn ssa_session_example(rt: HostRuntime) -> Result<(), Fail> {
    let mut reader = OfReader::new(b"{\"do\":\"undo\"}\n".as_slice());
    let mut writer = OfWriter::new(Vec::new(rt.alloc()));
    let done = session(
        rt.alloc(),
        &mut reader,
        &mut writer,
        &mut bench(rt.alloc())?,
    );
    assert_eq!(rt; done, Ok(()));
    let replies = b"{\"fault\":64,\"name\":\"NothingToUndo\"}\n";
    assert_eq!(rt; writer.into_inner().as_slice(), replies.as_slice());
    Ok(())
}
