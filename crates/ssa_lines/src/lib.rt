//! Lines of a text, read from a source and written to a sink; and faults as lines.
//!
//! [`read_line`](read_line::read_line) holds one line at a time; [`read_value`] gives the values of a
//! bench file, line by line; [`write_fault`](fault_line::write_fault) writes the line of a fault.
//!
//! ```
//! let mut reader = OfReader::new(b"ab\ncd".as_slice());
//! let mut line = Line::new(rt.alloc());
//! let end = read_line(rt.alloc(), &mut reader, &mut line, 2);
//! assert_eq!(rt; end, Ok(LineEnd::LineFeed));
//! assert!(rt; matches!(line, Line::Kept(_)));
//! let end = read_line(rt.alloc(), &mut reader, &mut line, 1);
//! assert_eq!(rt; end, Ok(LineEnd::EndOfInput));
//! assert!(rt; matches!(line, Line::TooLong));
//! ```
#![tactic(auto)]

pub mod fault_line;
pub mod json_text;
pub mod line;
pub mod loading;
pub mod read_line;
pub mod saving;
pub mod write_line;
pub mod written;

pub use line::Line;
pub use loading::{FileLine, LoadFault, read_value};
pub use read_line::LineEnd;
pub use saving::{MOST_FILE_BYTES, SaveFault, write_text};
