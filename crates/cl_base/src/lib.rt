//! The outside as a cluster sees it: sources, sinks and disks that count their faults. Beside it the lists, texts and
//! entries that every layer hands on, and the limits of the product.
#![tactic(auto)]

mod adapters;
mod disk;
mod entry;
mod fault;
mod gated;
pub mod limits;
mod list;
mod memory;
mod several;
mod stream;
mod text;
mod through;

pub use adapters::{ReadSource, WriteSink};
pub use disk::{Choice, Disk};
pub use entry::Entry;
pub use fault::{Failed, MemberFault, NoMemory, Trouble};
pub use gated::write_gated;
pub use list::{Bytes, List};
pub use memory::{MemSink, MemSource};
pub use several::{write_both, write_led, write_whole};
pub use stream::{Sink, Source};
pub use text::Text;
pub use through::{read_some, write_through};

#[cfg(test)]
mod tests;
