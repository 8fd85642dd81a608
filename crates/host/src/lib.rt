//! The world as a command sees it: the trait [`Host`], and what every command does with a host.
//!
//! A command asks the world for everything through the trait, so its contract can say what a run
//! comes to, whatever the host is. Here a copy of what fits a buffer, over the host of the crate
//! `memory_host`, which is in memory:
//!
//! ```
//! let input = b"the input".to_vec(alloc)?;
//! let mut host = MemoryHost::new(alloc, input, Vec::new(alloc), [7; 32]);
//! host.open_input(Some("in"))?;
//! let mut buf = [0u8; 5];
//! let n = host.pull(&mut buf)?;
//! write_output(&mut host, &buf[..n])?;
//! assert_eq!(rt; host.output(), b"the i".as_slice());
//! ```
#![tactic(auto)]

mod asked_source;
mod host;
mod reading;
mod vectors;
mod writing;

pub use asked_source::{AskedSource, GhostName};
pub use host::{Host, HostFault, Source};
pub use reading::{first_line_length, is_line_end, pull_full};
pub use writing::{push_all, refuse, write_output};
