//! The program over the outside: the words of a command line, the lines of its input, and [`run`], which
//! carries the command out over a folder, an input and an output.
//!
//! # The way of a command
//!
//! ```text
//!               command_of
//! words ------------------------> OUT, options ------------------ begin, add -------------> file
//!                                                                                            ^
//!               LineReader          EntryRoom: read        BbtWriter: add, finish            |
//! input ----------------> lines ----------------> entries -----------------------> bytes ----+
//!                           |                        |                               |
//!                           | line-long, line        | not-increasing, key-long,     | how many
//!                           |                        | value-long, heavy             |
//!                           v                        v                               v
//! output <----------- input N REASON, or usage where the words are no command      wrote N
//!
//!               command_of
//! words ------------------------> name of FILE                file
//!                                                               |  load, draw_framed, check_block
//!               LineReader          call_of_line                v
//! input ----------------> lines ----------------> calls      entries, or the first thing that is wrong
//!                           |                        |          |                        |
//!                           | line-long, line, many  +----+-----+                        |
//!                           v                             v                              v
//! output <----------- input N REASON               a line for each call           damage FAULT
//!
//!               command_of
//! words ------------------------> name of FILE, USER, SEQ     file
//!                                           |                   |  load, draw_framed, check_block
//!                                           |                   v
//!                                           |                entries, or the first thing that is wrong
//!                                           +------+------------+                        |
//!                                                  v                                     v
//! output <--------------------------- the entry's line or none, or               damage FAULT
//!                                     the lines of the entries
//! ```
//!
//! - Words: there are four commands: `write block OUT`, perhaps with options; `calls FILE`; `get FILE USER SEQ`;
//!   and `scan FILE`, perhaps with a SEQ. All others are Usage. USER and SEQ are as in a call line.
//! - Lines: an input is a list of lines, each ended by LF. An entry line is `USER SEQ KIND VALUE`: the user key and the
//!   value in hex digits or `-`, a decimal sequence number, and one of the letters D, P, M and S. A call line is one of
//!   `get USER SEQ`, `first`, `last`, `seek USER SEQ`, `seek_for_prev USER SEQ`, `next` and `prev`.
//! - Entries: each is after the one before and within the limits, as the writer has them. The first line that
//!   isn't so ends the run, and its number and its first reason are printed.
//! - File: all of a list that fits, the empty one too, in one block-based file. A data block is ended where it has as
//!   many bytes as the option says, or 4096.
//! - Calls: at most 1,048,576, all read and checked before FILE is opened. A line is printed for each: the entry that
//!   is shown, `none`, or `not-positioned`.
//! - Get: the line of the newest entry of USER that the snapshot SEQ sees, or `none`.
//! - Scan: the lines of the entries, in order; at a snapshot those of the entries that it sees.
//!
//! # Example
//!
//! `write block OUT` with the input `61 1 P 78` and LF prints `wrote 1` and LF, and leaves a file of 402
//! bytes:
//!
//! ```text
//!  at  bytes                                       what they are
//!   0  00 09 01 61 01 01 00 00 00 00 00 00 78      the data block: the row of the entry,
//!  13  00 00 00 00 01 00 00 00                     and one restart
//!  21  00 84 dd 88 74                              its trailer: type byte, checksum
//!  26  00 09 02 61 01 01 00 00 00 00 00 00 00 15   the index block: the last key leads to the block of
//!                                                  21 bytes at 0,
//!  40  00 00 00 00 01 00 00 00                     and one restart
//!  48  00 36 49 25 bf                              its trailer
//!  53  00 24 04 72 6f .. 70 65 00 00 00 00         the properties block: `rocksdb.block.based.table.index.type`
//!                                                  is 0,
//!  96  08 0a 1a 63 6f .. 74 6f 72                  and of `rocksdb.comparator` the first 8 bytes are shared;
//!                                                  ten more, up to
//! 285  0c 0a 01 76 61 6c 75 65 2e 73 69 7a 65 01   `rocksdb.raw.value.size`, which is 1,
//! 299  00 00 00 00 01 00 00 00                     and one restart
//! 307  00 b9 6d 74 e7                              its trailer
//! 312  00 12 03 72 6f .. 65 73 35 fe 01            the metaindex block: `rocksdb.properties` leads to the block
//!                                                  of 254 bytes at 53,
//! 336  00 00 00 00 01 00 00 00                     and one restart
//! 344  00 af b0 0b d0                              its trailer
//! 349  01 b8 02 20 1a 16                           the footer: the checksum type, the metaindex of 32 bytes
//!                                                  at 312, the index of 22 bytes at 26,
//! 355  00 .. 00                                    35 zeros,
//! 390  02 00 00 00 f7 cf f4 85 b7 41 e2 88         the version and the magic number
//! ```
//!
//! `calls OUT` with the lines `get 61 1`, `get 61 0`, `first` and `next` prints `61 1 P 78`, `none`, `61 1 P 78` and
//! `none`. `get OUT 61 1` prints `61 1 P 78`, and so do `scan OUT` and `scan OUT 1`; `get OUT 61 0` prints `none`, and
//! `scan OUT 0` nothing.
//!
//! RocksDB: the wiki page "Rocksdb BlockBasedTable Format"; table/block_based/block_based_table_builder.cc,
//! table/block_based/block_based_table_reader.cc and table/format.cc. The words and the lines are this project's own.
//!
//! # Promises
//!
//! What a run comes to is said in one form for every command (`Behaviour`, specs/Behaviour.antt): what the command finds, what
//! it answers and prints for that, what it leaves, and what it may change. [`run`] ends as the behaviour of the command
//! that its words are, or is stopped by a counted fault or out of memory, with a prefix of the text printed or nothing.
//!
//! - For each list that fits (`Fits`, sst_bbt_write), given as the lines of its entries (`lines_text`, sst_text), OUT holds what
//!   is `Written` for it, `wrote N` is printed, and the input is read to its end; but for a fault of the outside and for out
//!   of memory. The same holds of each text that says a list, and of each other text the first refusal is printed, a line and
//!   a reason ([`what_a_write_comes_to`]).
//! - On each file that stands for a list (`BlockBased`, sst_bbt_spec), each list of calls, given as its lines
//!   (`calls_text`, sst_text), is answered as the list answers (`answer_of`, sst_key); but for the same. On a file that opens, but
//!   whose separators don't separate, Get, Seek and SeekForPrev go by the index; on each other file the first thing that is
//!   wrong is printed, and the file shows it; of an input that is refused the first refusal, and then the folder isn't
//!   touched ([`what_calls_come_to`], and `spares_folder` of [`run`]).
//! - On each file that stands for a list, `get` prints what the list's Get shows ([`what_a_get_comes_to`]), and `scan` the lines
//!   of the list or of what is `visible` of it at the snapshot (sst_key; [`what_a_scan_comes_to`]). On a file that opens, but whose
//!   separators don't separate, Get goes by the index, and `scan` by First and Next, passing over what the snapshot doesn't see; on
//!   a list in order that is what is visible ([`a_filtered_walk_is_what_is_visible`]). Of each other file the first thing that
//!   is wrong is printed, and the input isn't touched ([`what_reading_a_file_comes_to`]).
//! - Words are a command by the first of them ([`a_command_is_by_its_words`]). Of others `usage` is printed, and nothing else is
//!   touched ([`what_a_run_comes_to`]).
//! - Where the folder and the input are told, what a command may find there has one outcome
//!   ([`a_told_world_has_one_outcome`]): so each status comes exactly where it is said to come, but for faults.
//! - A list's text reads back as the list ([`a_list_reads_back`]), and the same of calls ([`a_call_list_reads_back`]). What a
//!   text says is within the limits that these ask for ([`what_a_text_says_fits`]). A file that is written reads back
//!   ([`a_written_file_reads_back`]).
//! - Device is answered only with a counted fault, or where the folder tells that FILE isn't there. No file but OUT
//!   changes.
//!
//! # For now
//!
//! The whole file is made in memory and then added to OUT; a reader keeps all entries in memory.
//!
//! # Where to read
//!
//! The files by what they are for, in reading order; no file uses one that uses it:
//!
//! ```text
//! the program    status, options, command, program (`run`)
//! commands/      a file each: write (produce makes its file), calls, get, scan
//! input/         entries, calls, call_list; refusal
//! output/        printing; answers, damage, entry_text, listing
//! laws           laws of texts and files; run_laws: what a run comes to, for each command
//! ```
#![tactic(auto)]

mod command;
mod commands;
mod input;
mod laws;
mod options;
mod output;
mod program;
mod run_laws;
mod status;

pub use laws::{
    a_call_list_reads_back, a_list_reads_back, a_written_file_reads_back, what_a_text_says_fits,
};
pub use program::run;
pub use run_laws::{
    a_command_is_by_its_words, a_filtered_walk_is_what_is_visible, a_told_world_has_one_outcome,
    what_a_get_comes_to, what_a_run_comes_to, what_a_scan_comes_to, what_a_write_comes_to,
    what_calls_come_to, what_reading_a_file_comes_to,
};
pub use status::Status;
