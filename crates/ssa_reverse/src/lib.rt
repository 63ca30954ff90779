//! Values that are changed in place by a record, which becomes the record that leads back.
//!
//! A [`Reversible`] value is turned by its records. A [`Journal`] keeps the records of what was done to
//! it, so that undo and redo take no memory; a [`Depth`] says how many of them lead back at most. Below, a `Counter` is a
//! number whose record is another number.
//!
//! ```
//! let mut counter = Counter { count: 1 };
//! let mut journal = Journal::<Counter, &str>::new(rt.alloc());
//! let entry = Box::new(rt.alloc(), (2, "set to two"))?;
//! journal.record(&mut counter, entry)?;
//! assert!(rt; journal.undo(&mut counter)?);
//! assert_eq!(rt; counter.count, 1);
//! assert!(rt; journal.redo(&mut counter)?);
//! assert_eq!(rt; counter.count, 2);
//! ```
#![tactic(auto)]

pub mod depth;
pub mod journal;
pub mod reversible;
pub mod room;

pub use depth::Depth;
pub use journal::Journal;
pub use reversible::Reversible;
