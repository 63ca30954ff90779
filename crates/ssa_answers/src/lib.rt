//! What a bench is asked, and why it refuses: the commands of a line and of a subcommand, and the lines
//! of faults.
//!
//! [`read_command`](read_command::read_command) reads a line as a [`Command`], and [`command_of`] tells
//! the command that is [`Asked`]; [`fault_text`](fault_text::fault_text) is the line of a [`Fault`].
//!
//! ```
//! let asked = Asked::Owners {
//!     path: r#"["f:spec"]"#,
//! };
//! assert!(rt; command_of(rt.alloc(), asked).is_ok());
//! let asked = Asked::Owners {
//!     path: r#"["spec"]"#,
//! };
//! assert!(rt; command_of(rt.alloc(), asked).is_err());
//! ```
#![tactic(auto)]

pub mod asked;
pub mod change;
pub mod command;
mod command_shape;
mod entry_fault_text;
pub mod fault;
pub mod fault_text;
pub mod read_command;

pub use asked::{Asked, AskedFault, command_of};
pub use command::Command;
pub use fault::Fault;
pub use read_command::LineFault;
