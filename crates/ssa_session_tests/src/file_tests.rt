//! Sessions on the bench of an object file: what is written.

use ssa_json::reader::OfReader;
use ssa_json::sink::OfWriter;
use ssa_samples::sample::{schema, web};
use ssa_session::bench_session::session;
use ssa_session::files::{Ending, bench_of, tell};
use std::alloc::Global;
use std::test::Fail;

// What a session of one undo on the bench of the object file writes, or the line of the file's fault with how a run ends by it.
fn run(alloc: Global, object: &[u8]) -> Result<(Option<Ending>, Vec<u8>), Fail> {
    let mut reader = OfReader::new(b"{\"do\":\"undo\"}".as_slice());
    let mut writer = OfWriter::new(Vec::new(alloc));
    let ending = match bench_of(alloc, schema(alloc)?, object) {
        Ok(mut bench) => {
            session(alloc, &mut reader, &mut writer, &mut bench)?;
            None
        }
        Err(fault) => Some(tell(alloc, &mut writer, &fault)?),
    };
    Ok((ending, writer.into_inner()))
}

#[test]
fn a_session_is_held_on_the_file(rt: HostRuntime) -> Result<(), Fail> {
    let object = web(rt.alloc(), "", "")?;
    let (ending, written) = run(rt.alloc(), object.as_bytes())?;
    assert_eq!(rt; ending, None);
    assert_eq!(rt;
        written.as_slice(),
        b"{\"fault\":64,\"name\":\"NothingToUndo\"}\n".as_slice()
    );
    Ok(())
}

#[test]
fn a_file_that_is_refused_answers_no_line(rt: HostRuntime) -> Result<(), Fail> {
    let (ending, written) = run(rt.alloc(), b"{}")?;
    assert_eq!(rt; ending, Some(Ending::Refused));
    assert_eq!(rt;
        written.as_slice(),
        b"{\"fault\":60,\"name\":\"Identity\"}\n".as_slice()
    );
    Ok(())
}
