//! The lines of an input, which comes in pieces: where a line ends, whatever stands in it.
//!
//! Each byte is taken once, searched for a line end once, and moved to the front at most once.
ghost use Rattle.std.specs.Prelude.{◌⊎◌, ◌≡◌, ℕ, ◌+◌, ◌<◌, ◌≤◌, ◌^◌, List, ◌++◌, [], length, vec_len, take, drop, Option, None, Some, IfOk, OnErr};
ghost use Rattle.std.specs.Io.KnownBytes.{prepend_known};
ghost use Rattle.sst_device.specs.Outside.{CountsFaults};
ghost use Rattle.sst_text.specs.Texts.{cut};
ghost use Rattle.sst_text.specs.Lines.{IsRead, IsFound};
ghost use Rattle.sst_text.specs.Taken.{past_line};

use crate::cuts::first_place;
use sst_device::{DevStop, Failed, Intake};
use std::alloc::Global;
use std::marker::Model;

/// The most bytes that a line has before its line end.
const LINE_LIMIT: usize = 40_000_000;

/// How many bytes are taken from the input at a time.
const PIECE: usize = 65_536;

/// The byte that ends a line.
const LINE_END: u8 = b'\n';

/// What stands at the front of the bytes read so far.
#[derive(Clone, Copy, Debug, PartialEq, Eq)]
pub enum Found {
    /// A line of so many bytes, and its line end.
    Line(usize),
    /// More bytes than a line may have, and no line end among them.
    Long,
    /// Some bytes and no line end; the input has no more.
    Unended,
    /// Nothing; the input has no more.
    End,
}

/// A line of so many bytes before its line end, which may be more than a line may have.
fn found_line(bytes: &[u8], at: usize) -> Found
    requires { cut 10 bytes.now ≡ Some (take at bytes.now, drop 1 (drop at bytes.now)) }
    ensures { (left : Option (List ℕ)) → IsFound result bytes.now left }
{
    if at > LINE_LIMIT {
        Found::Long
    } else {
        Found::Line(at)
    }
}

/// Takes the next piece of the input, and answers its length: 0 where the input has no more.
fn refill<I: Intake>(bytes: &mut Vec<u8>, input: &mut I) -> Result<usize, DevStop>
    requires { vec_len bytes.old ≤ 2 ^ 32 }
    ensures more { IfOk result (λ n. (piece : List ℕ) × (length piece ≡ n) × (bytes.new.items ≡ bytes.old.items ++ piece)
        × (I.left input.old ≡ prepend_known piece (I.left input.new))) }
    ensures small { IfOk result (λ n. n ≤ 65536) }
    ensures end { result ≡ Ok 0 → IsRead (I.left input.new) }
    ensures faults { CountsFaults (result ≡ Err DevStop.Failed) (I.faults input.old) (I.faults input.new) }
{
    let before = bytes.len();
    if bytes.resize(before + PIECE, 0).is_err() {
        return Err(DevStop::Memory);
    }
    let (_, room) = bytes.as_mut_slice().split_at_mut(before);
    match input.take(room) {
        Ok(n) => {
            bytes.truncate(before + n);
            Ok(n)
        }
        Err(Failed) => Err(DevStop::Failed),
    }
}

/// The bytes read so far have no line end, and the input has no more.
fn ended(bytes: &[u8]) -> Found
    requires none { cut 10 bytes.now ≡ None }
    requires short { length bytes.now ≤ 40000000 }
    ensures { (left : Option (List ℕ)) → IsRead left → IsFound result bytes.now left }
{
    if bytes.is_empty() {
        Found::End
    } else {
        Found::Unended
    }
}

/// Reads on until the bytes have a line end, pass the limit of a line, or the input ends.
///
/// The bytes read so far have no line end. Each byte is searched once.
pub fn read_on<I: Intake>(bytes: &mut Vec<u8>, input: &mut I) -> Result<Found, DevStop>
    requires { cut 10 bytes.old.items ≡ None }
    ensures told { IfOk result (λ _. prepend_known bytes.old.items (I.left input.old)
        ≡ prepend_known bytes.new.items (I.left input.new)) }
    ensures found { IfOk result (λ found. IsFound found bytes.new.items (I.left input.new)) }
    ensures near { IfOk result (λ _. length (past_line bytes.new.items) ≤ 65536) }
    ensures faults { CountsFaults (result ≡ Err DevStop.Failed) (I.faults input.old) (I.faults input.new) }
{
    while bytes.len() <= LINE_LIMIT {
        let searched = bytes.len();
        let taken = refill(bytes, input)?;
        if taken == 0 {
            return Ok(ended(bytes.as_slice()));
        }
        let (_, piece) = bytes.as_slice().split_at(searched);
        if let Some(at) = first_place(piece, LINE_END) {
            return Ok(found_line(bytes.as_slice(), searched + at));
        }
    }
    Ok(Found::Long)
}

/// Takes the lines of an input, one after another. Contracts see it as the bytes that were read and not yet passed.
#[derive(Drop)]
pub struct LineReader {
    /// What was read.
    bytes: Vec<u8>,
    /// How many of those bytes were passed.
    start: usize,
}

impl Model for LineReader {
    ghost use Rattle.std.specs.Prelude.{ℕ, List, ◌≤◌, drop, vec_len};

    ghost Value = { List ℕ };

    ghost view = { λ r. drop r.start r.bytes.items };

    ghost invariant = { λ r. r.start ≤ vec_len r.bytes };
}

impl LineReader {
    /// A reader that has read nothing.
    pub fn new(alloc: Global) -> LineReader
        ensures { result ≡ [] }
    {
        LineReader {
            bytes: Vec::new(alloc),
            start: 0,
        }
    }

    /// Reads on to the end of the next line, and answers what stands at the front of the bytes that weren't passed.
    pub fn read_line<I: Intake>(&mut self, input: &mut I) -> Result<Found, DevStop>
        ensures told { IfOk result (λ _. prepend_known self.old (I.left input.old) ≡ prepend_known self.new (I.left input.new)) }
        ensures found { IfOk result (λ found. IsFound found self.new (I.left input.new)) }
        ensures near { length self.old ≤ 65536 → IfOk result (λ _. length (past_line self.new) ≤ 65536) }
        ensures faults { CountsFaults (result ≡ Err DevStop.Failed) (I.faults input.old) (I.faults input.new) }
    {
        let (_, unread) = self.bytes.as_slice().split_at(self.start);
        match first_place(unread, LINE_END) {
            Some(at) => Ok(found_line(unread, at)),
            None => {
                pass_front(&mut self.bytes, self.start);
                self.start = 0;
                read_on(&mut self.bytes, input)
            }
        }
    }

    /// The first `n` bytes that weren't passed.
    pub fn front(&self, n: usize) -> &[u8]
        requires { n ≤ length self.now }
        ensures { result.now ≡ take n self.now }
    {
        let (_, unread) = self.bytes.as_slice().split_at(self.start);
        let (front, _) = unread.split_at(n);
        front
    }

    /// Passes a line of `n` bytes and its line end.
    pub fn pass(&mut self, n: usize)
        requires { n < length self.old }
        ensures { self.new ≡ drop 1 (drop n self.old) }
    {
        self.start = self.start + n + 1;
    }
}

/// Lets go of the first bytes; the rest moves to the front.
fn pass_front(bytes: &mut Vec<u8>, n: usize)
    requires { n ≤ vec_len bytes.old }
    ensures { bytes.new.items ≡ drop n bytes.old.items }
{
    bytes.drain(..n);
}
