//! Why an input is refused, and how that is printed: `input N REASON`. The names are this project's own.
ghost use Rattle.std.specs.Prelude.{◌≡◌, Some, IfOk};
ghost use Rattle.std.specs.String.{string_bytes};
ghost use Rattle.sst_cli.specs.Refusals as names;
ghost use Rattle.sst_cli.specs.Refusals.{reason_text, refusal_text};

use sst_key::WriteFault;
use sst_num::Memory;
use std::alloc::Global;
use std::fmt;

/// Why a line of the input is refused.
#[derive(Clone, Copy, Debug, PartialEq, Eq)]
pub enum Reason {
    /// The line has more than 40,000,000 bytes before its line end.
    LineLong,
    /// The line isn't an entry line, or a call line where calls are read; or it has no line end.
    Line,
    /// The writer refuses the entry of the line.
    Refused(WriteFault),
    /// The line is a call line, and 1,048,576 call lines stand before it.
    Many,
}

/// A refusal of the input of a command: the first line that is refused, and why.
#[derive(Clone, Copy, Debug, PartialEq, Eq)]
pub struct Refusal {
    /// The line's number, from 1.
    pub line: u64,
    /// Why.
    pub reason: Reason,
}

impl fmt::Display for Reason {
    ghost output = { λ reason. Some (reason_text reason) };

    fn fmt<W: fmt::Write>(&self, f: &mut fmt::Formatter<W>) -> fmt::Result {
        f.write_str(match self {
            Reason::LineLong => "line-long",
            Reason::Line => "line",
            Reason::Refused(fault) => fault_name(*fault),
            Reason::Many => "many",
        })
    }
}

/// The name of a reason that a writer gives.
fn fault_name(fault: WriteFault) -> &'static str
    ensures { result.now ≡ names.fault_text fault }
{
    match fault {
        WriteFault::NotIncreasing => "not-increasing",
        WriteFault::KeyLong => "key-long",
        WriteFault::ValueLong => "value-long",
        WriteFault::Heavy => "heavy",
        WriteFault::ExternalShape => "external-shape",
        WriteFault::KeySize => "key-size",
        WriteFault::ShortKey => "short-key",
    }
}

/// The line that is printed for a refusal.
pub fn refusal_line(alloc: Global, refusal: Refusal) -> Result<String, Memory>
    ensures { IfOk result (λ text. string_bytes text ≡ refusal_text refusal) }
{
    let line = refusal.line;
    let reason = refusal.reason;
    let text = format!(in alloc; "input {line} {reason}\n")?;
    Ok(text)
}
