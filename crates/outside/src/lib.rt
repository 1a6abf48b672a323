//! What the program sees of the world outside: folders that hold files and sinks that take bytes,
//! in memory and of the system.
//!
//! Every call that reaches outside may fail, and each failure is counted, so that a caller's
//! contract can say that a failure was the outside's and not its own.
#![tactic(auto)]

mod bytes;
mod calls;
mod folder;
mod memory_file;
mod memory_folder;
mod memory_sink;
mod real_folder;
mod real_sink;
mod sink;
mod transfer;

pub use bytes::Bytes;
pub use folder::{Failed, Folder, ReadFault};
pub use memory_folder::MemoryFolder;
pub use memory_sink::MemorySink;
pub use real_folder::RealFolder;
pub use real_sink::RealSink;
pub use sink::Sink;
