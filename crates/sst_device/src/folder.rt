//! Folders of named files, and how a call on an object outside stops.
ghost use Rattle.std.specs.Prelude.{◌≡◌, ℕ, ◌+◌, ◌-◌, ◌^◌, ◌<◌, ◌≤◌, ◌⊎◌, ◌++◌, [], length, take, slice_range, Option, IsTrue, IsFalse, IsErr, IfOk, IfSome, OnOk, OnErr};
ghost use Rattle.sst_device.specs.Folder.{Files, file_of, put_file, edit_file, misses, written_over};
ghost use Rattle.sst_device.specs.Faults.{Rose, counted};
ghost use Rattle.sst_device.specs.declared.folder.DevStop.TheVariants as stop;

use sst_num::Memory;

/// A fault of an object outside: reading or writing failed.
#[derive(Clone, Copy, Debug, PartialEq, Eq)]
pub struct Failed;

/// Why a call on an object outside stopped.
#[derive(Clone, Copy, Debug, PartialEq, Eq)]
pub enum DevStop {
    /// The object failed, and counted it; or a folder missed, and counted nothing.
    Failed,
    /// Memory ran out.
    Memory,
}

impl From<Memory> for DevStop {
    ghost from_gives = { λ _ s. s ≡ stop.Memory };

    fn from(_memory: Memory) -> DevStop {
        DevStop::Memory
    }
}

/// A folder of named files.
///
/// A folder may tell what its files hold; a real one doesn't. A call *misses* where the folder tells that
/// the file isn't there, or that it is too short for the range of the call. A miss answers an error
/// and needs no fault for it; every other `Failed` comes only where the count of faults rose in the call, or
/// stands at the last value of a `u64`. No call changes a file other than the one named.
pub trait Folder {
    // The files, where the folder tells of them.
    ghost held: { Self → Option Files };

    // How many calls failed so far.
    ghost faults: { Self → ℕ };

    // How many bytes `read_at` handed out so far.
    ghost drawn: { Self → ℕ };

    /// The length of the named file, in bytes.
    fn size(&mut self, name: &str) -> Result<u64, DevStop>
        ensures length { IfOk result (λ n. IfSome (file_of (held self.old) name.now) (λ bytes. n ≡ length bytes)) }
        ensures miss { IsTrue (misses (held self.old) name.now 0) → IsErr result }
        ensures failed { result ≡ Err DevStop.Failed → IsTrue (misses (held self.old) name.now 0)
            ⊎ Rose (faults self.old) (faults self.new) }
        ensures same_files { held self.new ≡ held self.old }
        ensures same_drawn { drawn self.new ≡ drawn self.old }
        ensures counts { faults self.old ≤ faults self.new }
        ensures hides_none { (result ≡ Err DevStop.Failed) ⊎ (faults self.new ≡ faults self.old) };

    /// Fills the whole buffer with the bytes of the named file from `at` on. After an error the buffer holds
    /// anything.
    fn read_at(&mut self, name: &str, at: u64, buf: &mut [u8]) -> Result<(), DevStop>
        ensures filled { OnOk result (IfSome (file_of (held self.old) name.now)
            (λ bytes. buf.new ≡ slice_range bytes at (at + length buf.old))) }
        ensures miss { IsTrue (misses (held self.old) name.now (at + length buf.old)) → IsErr result }
        ensures failed { result ≡ Err DevStop.Failed → IsTrue (misses (held self.old) name.now (at + length buf.old))
            ⊎ Rose (faults self.old) (faults self.new) }
        ensures same_files { held self.new ≡ held self.old }
        ensures drew { OnOk result (drawn self.new ≡ counted (drawn self.old) (length buf.old)) }
        ensures drew_some { drawn self.new ≤ counted (drawn self.old) (length buf.old) }
        ensures never_falls { drawn self.old ≤ drawn self.new }
        ensures counts { faults self.old ≤ faults self.new }
        ensures hides_none { (result ≡ Err DevStop.Failed) ⊎ (faults self.new ≡ faults self.old) };

    /// Makes the named file empty, or makes it new. After an error the file is as it was or empty.
    fn begin(&mut self, name: &str) -> Result<(), DevStop>
        ensures begun { OnOk result (held self.new ≡ put_file (held self.old) name.now []) }
        ensures err { OnErr result ((held self.new ≡ held self.old)
            ⊎ (held self.new ≡ put_file (held self.old) name.now [])) }
        ensures failed { result ≡ Err DevStop.Failed → Rose (faults self.old) (faults self.new) }
        ensures same_drawn { drawn self.new ≡ drawn self.old }
        ensures counts { faults self.old ≤ faults self.new }
        ensures hides_none { (result ≡ Err DevStop.Failed) ⊎ (faults self.new ≡ faults self.old) };

    /// Appends the piece to the named file. After an error a prefix of the piece stands there.
    fn add(&mut self, name: &str, piece: &[u8]) -> Result<(), DevStop>
        ensures added { OnOk result (held self.new ≡ edit_file (held self.old) name.now (λ bytes. bytes ++ piece.now)) }
        ensures err { OnErr result ((n : ℕ)
            × (held self.new ≡ edit_file (held self.old) name.now (λ bytes. bytes ++ take n piece.now))) }
        ensures miss { IsTrue (misses (held self.old) name.now 0) → IsErr result }
        ensures failed { result ≡ Err DevStop.Failed → IsTrue (misses (held self.old) name.now 0)
            ⊎ Rose (faults self.old) (faults self.new) }
        ensures same_drawn { drawn self.new ≡ drawn self.old }
        ensures counts { faults self.old ≤ faults self.new }
        ensures hides_none { (result ≡ Err DevStop.Failed) ⊎ (faults self.new ≡ faults self.old) };

    /// Writes the piece over the bytes of the named file from `at` on, which are there. After an error a prefix
    /// of the piece was written over; no file grows, and at a miss none changes.
    fn patch(&mut self, name: &str, at: u64, piece: &[u8]) -> Result<(), DevStop>
        ensures patched { OnOk result (held self.new ≡ edit_file (held self.old) name.now (written_over at piece.now)) }
        ensures err { OnErr result ((n : ℕ) × ((n ≡ 0) ⊎ IsFalse (misses (held self.old) name.now (at + n)))
            × (held self.new ≡ edit_file (held self.old) name.now (written_over at (take n piece.now)))) }
        ensures miss { IsTrue (misses (held self.old) name.now (at + length piece.now)) → IsErr result }
        ensures missed { IsTrue (misses (held self.old) name.now (at + length piece.now)) → held self.new ≡ held self.old }
        ensures failed { result ≡ Err DevStop.Failed → IsTrue (misses (held self.old) name.now (at + length piece.now))
            ⊎ Rose (faults self.old) (faults self.new) }
        ensures same_drawn { drawn self.new ≡ drawn self.old }
        ensures counts { faults self.old ≤ faults self.new }
        ensures hides_none { (result ≡ Err DevStop.Failed) ⊎ (faults self.new ≡ faults self.old) };
}
