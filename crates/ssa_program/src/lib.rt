//! What the program does for the words it is given: the subcommands on a bench, its files, and the
//! statuses.
//!
//! [`perform`](perform::perform) carries out a call on files; [`answer`](answer::answer) tells what a
//! bench answers to a subcommand.
//!
//! ```
//! assert_eq!(rt; Status::Done.code(), 0);
//! assert_eq!(rt; Status::from(Ending::Refused).code(), 1);
//! ```
#![tactic(auto)]

pub mod answer;
mod changing;
pub mod draft;
pub mod files;
mod holding;
mod making;
mod names;
pub mod notes;
pub mod perform;
pub mod status;
mod trouble;
pub mod usage;
mod watch;

pub use answer::Reply;
pub use status::Status;
