//! The outside of domsyn: shelves that give files by their names, and sinks, which are output streams.
//! Each counts its faults, so a caller can tell a fault of the outside from its own.
#![tactic(auto)]

mod file_shelf;
mod limit;
mod memory_shelf;
mod memory_sink;
mod put;
mod shelf;
mod sink;
mod stream_sink;
mod sure_shelf;
mod sure_sink;

pub use file_shelf::FileShelf;
pub use limit::{FILE_LIMIT, is_too_long};
pub use memory_shelf::MemoryShelf;
pub use memory_sink::MemorySink;
pub use put::put_all;
pub use shelf::{FetchFault, Shelf};
pub use sink::{Sink, SinkFault};
pub use stream_sink::StreamSink;
pub use sure_shelf::SureShelf;
pub use sure_sink::SureSink;
