//! The outside: named files, bytes in and bytes out; and blocks as a file stores them.
//!
//! Everything above this layer reads and writes through three traits, so that it runs over real files and
//! streams, and over ones in memory that fail where a test wants it.
//!
//! # Folders and streams
//!
//! ```text
//!            tells                 calls                               real        in memory
//! Folder     held, faults, drawn   size read_at begin add patch        DiskFolder  MemFolder
//! Intake     left, faults          take                                StdIntake   MemIntake
//! Sink       written, faults       put (put_all: a whole piece)        StdSink     MemSink
//! ```
//!
//! `held` is a map from names to bytes, `left` and `written` are bytes. An object may tell nothing of them; the
//! clauses that speak of them then say nothing. `faults` counts the calls that failed, and `drawn` the bytes that
//! `read_at` handed out; neither ever falls, and both stand still at the last value of a `u64`.
//!
//! A *miss* is a call, other than `begin`, for a file that a folder tells it doesn't have, or for a range that
//! passes the end of the file. It answers [`Failed`] and needs no fault. Every other `Failed` comes only where
//! the count of faults rose in the call, or stands at its last value.
//!
//! # Layout of a stored block
//!
//! A file keeps a block with a trailer of five bytes; both together are a stored block, or a frame. A handle says where
//! it stands: its offset, and its size without the trailer.
//!
//! ```text
//! +---------------------+-----------+--------------------------------------+
//! | block               | type byte | masked checksum, fixed32, low first  |
//! | size bytes          | 1 byte: 0 | 4 bytes                              |
//! +---------------------+-----------+--------------------------------------+
//! ^ offset
//! |<-------- crc32c over these ---->|
//! ```
//!
//! # Example
//!
//! The data block of the one entry with user key `a`, sequence number 1 and value `x` has 21 bytes. It stands at the
//! front of its file, so its handle is offset 0, size 21, and it takes 26 bytes there:
//!
//! ```text
//! at  bytes                                    what they are
//!  0  00 09 01 61 01 01 00 00 00 00 00 00 78   the block: its one row,
//! 13  00 00 00 00 01 00 00 00                  and one restart
//! 21  00                                       the type byte: not compressed
//! 22  84 dd 88 74                              0x7488dd84, the masked CRC32C of the 22 bytes before it
//! ```
//!
//! # Promises
//!
//! - After an Ok each call did exactly what it says to what is told. After an error an `add`, a `patch` and a
//!   `put` did it with a prefix of the piece, and a `begin` did it or left the file. A `patch` makes no file longer.
//!   No call changes another file, and a read changes none.
//! - The objects in memory tell all that they hold, and fail at the calls that they are told to and at no other but
//!   a miss and for want of memory ([`Planned`]). The real ones are proved against the same traits, but tell
//!   nothing of content.
//! - [`put_all`] puts a whole piece, or a prefix of it and says why.
//! - [`put_frame`] appends exactly the stored block, and wherever it stands in a file, its handle stands
//!   for it ([`frame_is_framed`]).
//! - [`draw`] answers the bytes of a range of a file.
//! - [`draw_framed`] reads the block at a handle in one call, or answers the first thing that is wrong with it, in
//!   this order: the block or its trailer passes the end, the block is too large, its checksum is another, it is
//!   compressed. It draws no more than the block and its trailer.
//! - What is read at a handle is exactly the block that is stored there ([`a_stored_block_is_read`]), and a fault that
//!   is read is exactly the first thing that is wrong ([`a_frame_fault_is_the_first`]).
//!
//! Not promised: what a real file holds, that nobody else writes it, and that what was written reaches the disk.
//! The real adapters are the trusted edge: that each asks the system for the right thing is only tested (tests/real).
//! [`DiskFolder`] writes a file that is begun beside the old one, and its `keep` asks the system to sync the new file, to
//! put it into the old one's place, and to sync the folder. Of that its contract has the faults alone. Each real object
//! keeps the error of the system of its first call that failed, for a message.
//!
//! A block without a trailer, as plain and cuckoo tables keep their meta blocks, is defined (`Bare`,
//! specs/Framed.antt), and no call reads one yet.
//!
//! RocksDB: table/format.h (`BlockHandle`), block_based_table_reader.h (`kBlockTrailerSize`), table/format.cc
//! (`ComputeBuiltinChecksumWithLastByte`), table/block_fetcher.cc, util/crc32c.h; the folder does the work of
//! `FileSystem` in include/rocksdb/file_system.h.
#![tactic(auto)]

mod counts;
mod drawing;
mod folder;
mod frame;
mod laws;
mod memory;
mod real;
mod stream;

pub use drawing::{draw, draw_framed};
pub use folder::{DevStop, Failed, Folder};
pub use frame::{FrameFault, TRAILER_LENGTH, put_frame};
pub use laws::{
    a_block_without_a_trailer_is_bare, a_frame_fault_is_the_first, a_stored_block_is_read,
    frame_is_framed, one_file_changes,
};
pub use memory::{MemFolder, MemIntake, MemSink, Planned};
pub use real::{DiskFolder, Failure, StdIntake, StdSink};
pub use stream::{Intake, Sink, put_all};
