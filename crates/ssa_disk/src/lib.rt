//! The files of a disk, and the draft that takes a file's place.
//!
//! All that the program does to files goes through a [`Disk`]. [`OfFiles`] makes one of the files of the machine.
//!
//! ```
//! let disk = OfFiles::new(&rt);
//! let place = disk.find(rt.alloc(), "no_such.bench")?;
//! assert!(rt; place.found.is_none());
//! ```
#![tactic(auto)]

pub mod disk;
pub mod draft;
pub mod files;

pub use disk::{Disk, MakeFault, Place, PlaceFault, ReadFault};
pub use draft::Draft;
pub use files::OfFiles;
