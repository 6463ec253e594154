//! The edge of the program: where files come from and where bytes go.
//!
//! A `Files` gives the bytes of a file, up to a limit; a `Sink` takes bytes, a piece at a time.
//! Contracts see what each of them holds, where it tells, and how often it has failed, so that a
//! caller can say of each refusal where it came from. `MemFiles` and `MemSink` stand in memory and
//! fail where a test asks for it. `DiskFiles` are the files of the system and tell nothing of what
//! they hold; `StdSink` hands its bytes to a writer, as standard output, and tells what that writer
//! tells. A file past the limit is refused, and not held whole. `load_file` is the load of the
//! program, with its one limit of 67,108,864 bytes.
//!
//! Example: with `files.add("a", b"12345")?`, `files.load(alloc, "a", 5)?` is the five bytes, and
//! `files.load(alloc, "a", 3)` is `Err(LoadFault::TooLong(4))`.
#![tactic(auto)]

mod disk;
mod files;
mod loads;
mod mem_files;
mod mem_sink;
mod sink;

pub use disk::{DiskFiles, StdSink};
pub use files::{Files, LoadFault};
pub use loads::load_file;
pub use mem_files::MemFiles;
pub use mem_sink::MemSink;
pub use sink::{Sink, SinkFault, put_all};
