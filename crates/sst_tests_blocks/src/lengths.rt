//! Tests of loading over a folder that says how long its files are, and whose calls to read them stop.
//!
//! So a file past the limit is refused, and no such file is made.
use sst_device::{DevStop, Folder};
use sst_meta::{MetaFault, load};
use sst_num::Stop;

/// A folder in which each file has so many bytes, and reading stops so.
#[derive(Clone, Copy)]
struct SaidFiles {
    len: u64,
    stop: DevStop,
}

impl Folder for SaidFiles {
    ghost use Rattle.std.specs.Prelude.{ℕ, ◌-◌, ◌^◌, None};

    ghost held = { λ _. None };

    // The last value of a `u64`: a folder that has failed so often may fail at each call.
    ghost faults = { λ _. 2 ^ 64 - 1 };

    ghost drawn = { λ _. 0 };

    fn size(&mut self, _name: &str) -> Result<u64, DevStop> {
        Ok(self.len)
    }

    fn read_at(&mut self, _name: &str, _at: u64, _buf: &mut [u8]) -> Result<(), DevStop> {
        Err(self.stop)
    }

    fn begin(&mut self, _name: &str) -> Result<(), DevStop> {
        Err(self.stop)
    }

    fn add(&mut self, _name: &str, _piece: &[u8]) -> Result<(), DevStop> {
        Err(self.stop)
    }

    fn patch(&mut self, _name: &str, _at: u64, _piece: &[u8]) -> Result<(), DevStop> {
        Err(self.stop)
    }
}

/// Lengths, how reading stops, and how loading does.
static LENGTHS: [(u64, DevStop, Stop<MetaFault>); 4] = [
    (
        1_099_511_627_776,
        DevStop::Failed,
        Stop::Damage(MetaFault::FileLong),
    ),
    (u64::MAX, DevStop::Memory, Stop::Damage(MetaFault::FileLong)),
    (1_099_511_627_775, DevStop::Failed, Stop::Device),
    (1_099_511_627_775, DevStop::Memory, Stop::Memory),
];

#[test]
fn lengths_and_stops(rt: HostRuntime) {
    for (len, stop, wanted) in LENGTHS {
        let mut files = SaidFiles { len, stop };
        let loaded = load(rt.alloc(), &mut files, "table");
        assert_eq!(rt; loaded.err(), Some(wanted));
    }
}
