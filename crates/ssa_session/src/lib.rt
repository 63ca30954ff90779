//! Sessions: one command a line in, one reply a line out.
//!
//! [`session`] answers the lines of a source on a bench; [`bench_of`] makes the bench of a schema and an object file.
//!
//! ```
//! let mut reader = OfReader::new(b"{\"do\":\"undo\"}\n".as_slice());
//! let mut writer = OfWriter::new(Vec::new(rt.alloc()));
//! let done = session(
//!     rt.alloc(),
//!     &mut reader,
//!     &mut writer,
//!     &mut bench(rt.alloc())?,
//! );
//! assert_eq!(rt; done, Ok(()));
//! let replies = b"{\"fault\":64,\"name\":\"NothingToUndo\"}\n";
//! assert_eq!(rt; writer.into_inner().as_slice(), replies.as_slice());
//! ```
#![tactic(auto)]

pub mod bench_machine;
pub mod bench_session;
pub mod engine;
pub mod files;
mod log_text;
pub mod machine;
pub mod reply_text;
pub mod watcher;

pub use bench_machine::answer_command;
pub use bench_session::{session, watched_session};
pub use engine::{LINE_LIMIT, SessionFault};
pub use files::{Ending, FileFault, bench_of, bench_with, schema_of, tell};
pub use machine::Machine;
pub use watcher::{Unwatched, Watcher};
