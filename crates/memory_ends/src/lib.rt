//! Ends in memory, which tell all that they hold: a source, a sink and a store, for programs that test what stands on ends.
//!
//! `MemSource` hands out the bytes of a `Vec`, `MemSink` keeps what is written, and `MemStore` keeps files in a map. Each
//! fails at the calls that a list of call numbers names, and counts them. The sink and the store fail, and count it, for
//! want of memory too.
//!
//! Contract in one sentence: each is a `Source`, `Sink` or `Store` of `sym_io` that tells its bytes or files, and whose listed
//! calls fail.
//!
//! Below stands `sym_io`. Above stand tests alone: no part of `symphony` does.
#![tactic(auto)]

mod mem_sink;
mod mem_source;
mod mem_store;
mod plan;

pub use mem_sink::MemSink;
pub use mem_source::MemSource;
pub use mem_store::MemStore;
