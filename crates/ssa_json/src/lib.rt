//! JSON values without nulls and floats, moments, and the devices that bytes come from and go to.
//!
//! All that is read and printed goes through here: a [`Json`] is what a text says, a [`Moment`] a time
//! of RFC 3339 by the second; a [`Source`] lends bytes and a [`Sink`] takes them, and [`OfReader`] and
//! [`OfWriter`] make them of std's readers and writers.
//!
//! ```
//! let text = r#"{"b": [1, true], "a": "x"}"#;
//! let value = Json::read(rt.alloc(), text.as_bytes(), text.len())?;
//! assert_eq!(rt;
//!     value.to_string(rt.alloc())?.as_str(),
//!     r#"{"a":"x","b":[1,true]}"#
//! );
//! assert!(rt; Json::read(rt.alloc(), b"1.5", 3).is_err());
//! assert!(rt; Moment::read("2023-02-29T00:00:00Z").is_err());
//! ```
#![tactic(auto)]

mod copy;
pub mod fault;
pub mod fault_code;
mod make;
pub mod members;
pub mod moment;
mod piece;
pub mod quotes;
mod read;
pub mod reader;
pub mod reading_room;
mod retrying;
mod same;
mod sent;
pub mod sink;
pub mod source;
mod straight;
pub mod text;
pub mod value;
mod waiting;
pub mod write;

pub use fault::JsonFault;
pub use fault_code::FaultCode;
pub use moment::{BadMoment, Moment};
pub use reader::OfReader;
pub use reading_room::ReadingRoom;
pub use sink::{OfWriter, Sink, write_all};
pub use source::{DeviceFault, Source};
pub use value::{Json, Scalar};
