//! Standard input and output.
ghost use Rattle.std.specs.Prelude.{◌≡◌, ◌≤◌, length, None, IfOk, OnErr};

use crate::counts::raise;
use crate::folder::{DevStop, Failed};
use crate::stream::{Intake, Sink};
use std::io;
use std::io::{ErrorKind, Read};

/// Standard input. It tells nothing of what is left.
#[derive(Drop)]
pub struct StdIntake<R: Input> {
    reader: R::Reader,
    failure: Option<io::Error>,
    faults: u64,
}

impl<R: Input> StdIntake<R> {
    /// Takes the standard input of the runtime. No call has failed yet.
    pub fn new(rt: &R) -> StdIntake<R>
        ensures { ⟦<StdIntake<R> as Intake>⟧.faults result ≡ 0 }
    {
        StdIntake {
            reader: rt.reader(),
            failure: None,
            faults: 0,
        }
    }

    /// The system's error at the first call that failed, for a message.
    pub fn failure(&self) -> Option<io::Error> {
        self.failure
    }
}

/// Keeps the first error.
fn note(first: &mut Option<io::Error>, error: io::Error) {
    if first.is_none() {
        *first = Some(error);
    }
}

/// One read, tried again where a signal interrupts it.
fn read_some<R: Read>(reader: &mut R, buf: &mut [u8]) -> io::Result<usize>
    ensures within { IfOk result (λ n. n ≤ length buf.new) }
{
    for _ in 0..u64::MAX {
        match reader.read(buf) {
            Ok(count) => return Ok(count),
            Err(error) => {
                if error.kind() != ErrorKind::Interrupted {
                    return Err(error);
                }
            }
        }
    }
    Err(io::Error::from(ErrorKind::Interrupted))
}

/// One write, tried again where a signal interrupts it.
fn write_some<R: Print>(rt: &R, piece: &[u8]) -> io::Result<usize>
    ensures within { IfOk result (λ n. n ≤ length piece.now) }
{
    for _ in 0..u64::MAX {
        match rt.write_some(piece) {
            Ok(count) => return Ok(count),
            Err(error) => {
                if error.kind() != ErrorKind::Interrupted {
                    return Err(error);
                }
            }
        }
    }
    Err(io::Error::from(ErrorKind::Interrupted))
}

impl<R: Input> Intake for StdIntake<R> {
    ghost left = { λ _. None };

    ghost faults = { λ intake. intake.faults };

    fn take(&mut self, buf: &mut [u8]) -> Result<usize, Failed> {
        match read_some(&mut self.reader, buf) {
            Ok(count) => Ok(count),
            Err(error) => {
                self.faults = raise(self.faults);
                note(&mut self.failure, error);
                Err(Failed)
            }
        }
    }
}

/// Standard output, which is written at each `put`, with no buffer. It tells nothing of what was written.
#[derive(Drop)]
pub struct StdSink<R: Print> {
    rt: R,
    failure: Option<io::Error>,
    faults: u64,
}

impl<R: Print> StdSink<R> {
    /// Takes the standard output of the runtime. No call has failed yet.
    pub fn new(rt: R) -> StdSink<R>
        ensures { ⟦<StdSink<R> as Sink>⟧.faults result ≡ 0 }
    {
        StdSink {
            rt,
            failure: None,
            faults: 0,
        }
    }

    /// The system's error at the first call that failed, for a message.
    pub fn failure(&self) -> Option<io::Error> {
        self.failure
    }
}

impl<R: Print> Sink for StdSink<R> {
    ghost written = { λ _. None };

    ghost faults = { λ sink. sink.faults };

    fn put(&mut self, piece: &[u8]) -> Result<usize, DevStop> {
        match write_some(&self.rt, piece) {
            Ok(0) => {
                if !piece.is_empty() {
                    self.faults = raise(self.faults);
                    note(&mut self.failure, io::Error::from(ErrorKind::WriteZero));
                }
                Ok(0)
            }
            Ok(count) => Ok(count),
            Err(error) => {
                self.faults = raise(self.faults);
                note(&mut self.failure, error);
                Err(DevStop::Failed)
            }
        }
    }
}
