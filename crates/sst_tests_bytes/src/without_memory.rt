//! Tests of objects outside for which memory has run out: the calls over them say that, and not that the device failed.
use sst_device::{DevStop, Folder, Sink, draw, draw_framed, put_all};
use sst_num::{Handle, Stop};

/// A folder and an output whose calls answer that memory ran out.
#[derive(Clone, Copy)]
struct Wanting;

impl Folder for Wanting {
    ghost use Rattle.std.specs.Prelude.{None};

    ghost held = { λ _. None };

    ghost faults = { λ _. 0 };

    ghost drawn = { λ _. 0 };

    fn size(&mut self, _name: &str) -> Result<u64, DevStop> {
        Err(DevStop::Memory)
    }

    fn read_at(&mut self, _name: &str, _at: u64, _buf: &mut [u8]) -> Result<(), DevStop> {
        Err(DevStop::Memory)
    }

    fn begin(&mut self, _name: &str) -> Result<(), DevStop> {
        Err(DevStop::Memory)
    }

    fn add(&mut self, _name: &str, _piece: &[u8]) -> Result<(), DevStop> {
        Err(DevStop::Memory)
    }

    fn patch(&mut self, _name: &str, _at: u64, _piece: &[u8]) -> Result<(), DevStop> {
        Err(DevStop::Memory)
    }
}

impl Sink for Wanting {
    ghost use Rattle.std.specs.Prelude.{None};

    ghost written = { λ _. None };

    ghost faults = { λ _. 0 };

    fn put(&mut self, _piece: &[u8]) -> Result<usize, DevStop> {
        Err(DevStop::Memory)
    }
}

#[test]
fn calls_without_memory(rt: HostRuntime) {
    let mut wanting = Wanting;
    let handle = Handle {
        offset: 0,
        size: 21,
    };
    let range = draw(rt.alloc(), &mut wanting, "table", 2, 3);
    assert_eq!(rt; range.err(), Some(DevStop::Memory));
    let block = draw_framed(rt.alloc(), &mut wanting, "table", 26, handle);
    assert_eq!(rt; block.err(), Some(Stop::Memory));
    assert_eq!(rt; put_all(&mut wanting, b"12"), Err(DevStop::Memory));
}
