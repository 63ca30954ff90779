//! Bench files: a bench as a text, and the first lines of files.
//!
//! What a bench is as a text is written by [`recorded_text`]; the first line of a file, its head, says the
//! format, which [`file_head`] reads, and in a file of records how deep the bench is and how many commands there are, as
//! [`record_counts`] tells.
//!
//! ```
//! let head = json(rt.alloc(), r#"{"depth":10,"format":4,"future":0,"past":1}"#)?;
//! let counts = record_counts(rt.alloc(), &head)?.ok_or("no head")?;
//! assert_eq!(rt; counts.format, RecordFormat::Depths);
//! assert_eq!(rt; counts.depth.number(), 10);
//! assert_eq!(rt; (counts.past, counts.future), (1, 0));
//! ```
#![tactic(auto)]

pub mod head;
pub mod recording;
pub mod state_line;

pub use head::{FileHead, RecordCounts, StatePlace, file_head, record_counts};
pub use recording::{RecordFormat, record_head, recorded_text};
