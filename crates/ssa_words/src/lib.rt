//! The words of the program, read by `clap`.
//!
//! [`read_words`] gives the [`Call`] that the words are, or the [`Usage`] to be told.
//!
//! ```
//! let call = read_words(rt.alloc(), &["undo", "web.bench"])?;
//! assert_eq!(rt; call, Call::Undo { bench: "web.bench" });
//! assert!(rt; read_words(rt.alloc(), &["undo"]).is_err());
//! ```
#![tactic(auto)]

pub mod call;
mod rows;
mod table;
pub mod usage;
pub mod words;

pub use call::Call;
pub use usage::Usage;
pub use words::read_words;
