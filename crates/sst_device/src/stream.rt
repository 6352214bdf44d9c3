//! Streams of bytes, in and out.
ghost use Rattle.std.specs.Prelude.{◌≡◌, ℕ, ◌<◌, ◌≤◌, ◌⊎◌, List, [], ◌++◌, length, take, Option, IfOk, IfSome, OnOk, OnErr};
ghost use Rattle.std.specs.Io.KnownBytes.{prepend_known, append_known};
ghost use Rattle.sst_device.specs.Faults.{Rose};
ghost use Rattle.sst_device.specs.Outside.{CountsFaults};

use crate::folder::{DevStop, Failed};

/// Bytes that come in, in pieces.
pub trait Intake {
    // The bytes that are still to come, where the intake tells of them.
    ghost left: { Self → Option (List ℕ) };

    // How many calls failed so far.
    ghost faults: { Self → ℕ };

    /// Moves at least one byte of what is left into a buffer that isn't empty, and answers how many; 0 is
    /// the end of the input. After an error nothing is said of what is left.
    fn take(&mut self, buf: &mut [u8]) -> Result<usize, Failed>
        ensures within { IfOk result (λ n. n ≤ length buf.new) }
        ensures moved { IfOk result (λ n. left self.old ≡ prepend_known (take n buf.new) (left self.new)) }
        ensures end { result ≡ Ok 0 → 0 < length buf.old → IfSome (left self.new) (λ bytes. bytes ≡ []) }
        ensures failed { OnErr result (Rose (faults self.old) (faults self.new)) }
        ensures counts { faults self.old ≤ faults self.new }
        ensures hides_none { OnOk result (faults self.new ≡ faults self.old) };
}

/// Bytes that go out, in pieces.
pub trait Sink {
    // The bytes that were put so far, where the sink tells of them.
    ghost written: { Self → Option (List ℕ) };

    // How many calls failed so far.
    ghost faults: { Self → ℕ };

    /// Appends a prefix of the piece, and answers its length: 0 for a piece that isn't empty only with a fault.
    /// After an error a prefix of the piece was appended.
    fn put(&mut self, piece: &[u8]) -> Result<usize, DevStop>
        ensures within { IfOk result (λ n. n ≤ length piece.now) }
        ensures appended { IfOk result (λ n. written self.new ≡ append_known (written self.old) (take n piece.now)) }
        ensures err { OnErr result ((n : ℕ) × (written self.new ≡ append_known (written self.old) (take n piece.now))) }
        ensures none { result ≡ Ok 0 → 0 < length piece.now → Rose (faults self.old) (faults self.new) }
        ensures failed { result ≡ Err DevStop.Failed → Rose (faults self.old) (faults self.new) }
        ensures counts { faults self.old ≤ faults self.new }
        ensures hides_none { (result ≡ Err DevStop.Failed) ⊎ (result ≡ Ok 0) ⊎ (faults self.new ≡ faults self.old) };
}

/// Puts the whole piece, in as many calls of `put` as the sink needs; an empty piece makes no call.
///
/// Answers `Failed` where a `put` failed or took nothing of what was left, and `Memory` where a `put` ran out of
/// memory. After an error a prefix of the piece stands in the sink.
pub fn put_all<O: Sink>(out: &mut O, piece: &[u8]) -> Result<(), DevStop>
    ensures all { OnOk result (O.written out.new ≡ append_known (O.written out.old) piece.now) }
    ensures err { OnErr result ((n : ℕ)
        × (O.written out.new ≡ append_known (O.written out.old) (take n piece.now))) }
    ensures faults { CountsFaults (result ≡ Err DevStop.Failed) (O.faults out.old) (O.faults out.new) }
{
    let mut done = 0;
    while done < piece.len() {
        let rest = piece.split_at(done).1;
        let taken = out.put(rest)?;
        if taken == 0 {
            return Err(DevStop::Failed);
        }
        done += taken;
    }
    Ok(())
}
