//! A file of 2^40 bytes isn't read, and one of a byte less is.
//!
//! No such file is made: a folder that tells nothing says how long each of its files is, and fails to read them.
use sst_cli::{Status, run};
use sst_device::{DevStop, Folder, MemIntake, MemSink};
use sst_tests_shared::worked_run::{CALLS, owned};
use std::alloc::Global;
use std::test::Fail;

/// A folder in which each file has so many bytes, and can't be read.
#[derive(Clone, Copy)]
struct LongFiles {
    len: u64,
}

impl Folder for LongFiles {
    ghost use Rattle.std.specs.Prelude.{ℕ, ◌-◌, ◌^◌, None};

    ghost held = { λ _. None };

    // The last value of a `u64`: a folder that has failed so often may fail at each call.
    ghost faults = { λ _. 2 ^ 64 - 1 };

    ghost drawn = { λ _. 0 };

    fn size(&mut self, _name: &str) -> Result<u64, DevStop> {
        Ok(self.len)
    }

    fn read_at(&mut self, _name: &str, _at: u64, _buf: &mut [u8]) -> Result<(), DevStop> {
        Err(DevStop::Failed)
    }

    fn begin(&mut self, _name: &str) -> Result<(), DevStop> {
        Err(DevStop::Failed)
    }

    fn add(&mut self, _name: &str, _piece: &[u8]) -> Result<(), DevStop> {
        Err(DevStop::Failed)
    }

    fn patch(&mut self, _name: &str, _at: u64, _piece: &[u8]) -> Result<(), DevStop> {
        Err(DevStop::Failed)
    }
}

/// Whether a call on a file of so many bytes ends with this status and prints this.
fn ends(alloc: Global, len: u64, status: Status, text: &str) -> Result<bool, Fail> {
    let words = owned(alloc, &CALLS)?;
    let mut files = LongFiles { len };
    let mut input = MemIntake::new(alloc, b"first\n", &[])?;
    let mut out = MemSink::new(alloc, &[])?;
    let ended = run(alloc, &words, &mut files, &mut input, &mut out);
    Ok(ended == status && out.bytes() == text.as_bytes())
}

#[test]
fn a_file_of_two_to_the_forty_bytes(rt: HostRuntime) -> Result<(), Fail> {
    assert!(rt; ends(rt.alloc(), 1 << 40, Status::File, "damage file-long\n")?);
    assert!(rt; ends(rt.alloc(), u64::MAX, Status::File, "damage file-long\n")?);
    assert!(rt; ends(rt.alloc(), (1 << 40) - 1, Status::Device, "")?);
    Ok(())
}
