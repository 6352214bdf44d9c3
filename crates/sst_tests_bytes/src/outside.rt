//! Tests of the objects outside: the real folder, and what the failing calls of those in memory do. That the real streams are
//! read and written shows where the program runs: checks/run and tests/real/run.
//!
//! Each row of a table is a call, and what it answers. The same loop goes over a real folder and one in memory.
use sst_device::{
    DevStop, DiskFolder, Failed, Folder, Intake, MemFolder, MemIntake, MemSink, Sink,
    one_file_changes, put_all,
};
use sst_num::{Memory, Stop};
use std::process::Abort;
use std::rt::Files;
use std::test::Fail;

/// How a call ends that answers nothing else.
type Done = Result<(), DevStop>;

/// What a call answers where the object fails.
const FAILS: Done = Err(DevStop::Failed);

/// A call on the named file of a folder, and what it answers.
#[derive(Clone, Copy, Debug)]
enum Step {
    Size(&'static str, Result<u64, DevStop>),
    Begin(&'static str, Done),
    Add(&'static str, &'static [u8], Done),
    Patch(&'static str, u64, &'static [u8], Done),
    /// Three bytes are read from a place on. Where that fails, what the buffer holds isn't looked at.
    Read(&'static str, u64, Result<[u8; 3], DevStop>),
}

/// What reading three bytes answers.
fn read<F: Folder>(folder: &mut F, name: &str, at: u64) -> Result<[u8; 3], DevStop> {
    let mut buf = [0; 3];
    folder.read_at(name, at, &mut buf)?;
    Ok(buf)
}

/// Asserts that a call answers as it has to.
fn assert_step<F: Folder>(rt: &impl Abort, folder: &mut F, step: Step) {
    match step {
        Step::Size(name, length) => assert_eq!(rt; folder.size(name), length, "{step:?}"),
        Step::Begin(name, done) => assert_eq!(rt; folder.begin(name), done, "{step:?}"),
        Step::Add(name, piece, done) => assert_eq!(rt; folder.add(name, piece), done, "{step:?}"),
        Step::Patch(name, at, piece, done) => {
            assert_eq!(rt; folder.patch(name, at, piece), done, "{step:?}")
        }
        Step::Read(name, at, bytes) => assert_eq!(rt; read(folder, name, at), bytes, "{step:?}"),
    }
}

/// Asserts the same of one call after another.
fn assert_steps<F: Folder>(rt: &impl Abort, folder: &mut F, steps: &[Step]) {
    for step in steps {
        assert_step(rt, folder, *step);
    }
}

/// Calls on a real folder, which is empty.
static ON_DISK: [Step; 14] = [
    Step::Size("made", Err(DevStop::Failed)),
    Step::Begin("made", Ok(())),
    Step::Add("made", b"abcd", Ok(())),
    Step::Add("made", b"efgh", Ok(())),
    Step::Size("made", Ok(8)),
    Step::Patch("made", 3, b"DE", Ok(())),
    Step::Patch("made", 7, b"HI", FAILS),
    Step::Read("made", 2, Ok(*b"cDE")),
    Step::Read("made", 6, Err(DevStop::Failed)),
    Step::Add("absent", b"x", FAILS),
    Step::Begin("absent/made", FAILS),
    Step::Begin("made", Ok(())),
    Step::Size("made", Ok(0)),
    Step::Read("made", 0, Err(DevStop::Failed)),
];

#[test]
fn a_real_folder(rt: HostRuntime) {
    let mut folder = DiskFolder::new(&rt);
    assert_steps(&rt, &mut folder, &ON_DISK);
}

// What is begun takes its place when it is kept, and else the place stays as it was.
#[test]
fn a_real_folder_keeps_and_discards(rt: HostRuntime) {
    let mut folder = DiskFolder::new(&rt);
    assert_steps(
        &rt,
        &mut folder,
        &[
            Step::Begin("made", Ok(())),
            Step::Add("made", b"abcd", Ok(())),
        ],
    );
    assert_steps(
        &rt,
        &mut DiskFolder::new(&rt),
        &[Step::Size("made", Err(DevStop::Failed))],
    );
    assert_eq!(rt; folder.keep(), Ok(()));
    assert_steps(&rt, &mut DiskFolder::new(&rt), &[Step::Size("made", Ok(4))]);
    assert_steps(
        &rt,
        &mut folder,
        &[Step::Begin("made", Ok(())), Step::Begin("other", Ok(()))],
    );
    folder.discard();
    assert_steps(
        &rt,
        &mut folder,
        &[
            Step::Size("made", Ok(4)),
            Step::Patch("made", 1, b"BC", Ok(())),
        ],
    );
    assert_eq!(rt; folder.keep(), Ok(()));
    assert_steps(&rt, &mut folder, &[Step::Read("made", 0, Ok(*b"aBC"))]);
    assert_eq!(rt; folder.failure().is_none(), true);
    assert_steps(
        &rt,
        &mut folder,
        &[Step::Size("other", Err(DevStop::Failed))],
    );
    assert_eq!(rt; folder.failure().is_some(), true);
}

/// Of a folder in memory with the files `one` of eight bytes and `two` of none: the calls that fail; all calls; what files
/// hold afterwards; and how many bytes were drawn.
static FOLDERS: [(&[u64], &[Step], [(&str, Option<&[u8]>); 4], u64); 2] = [
    (
        &[],
        &[
            Step::Size("one", Ok(8)),
            Step::Read("one", 2, Ok(*b"345")),
            Step::Read("one", 6, Err(DevStop::Failed)),
            Step::Patch("one", 6, b"xy", Ok(())),
            Step::Patch("one", 7, b"xy", FAILS),
            Step::Add("two", b"abc", Ok(())),
            Step::Add("three", b"abc", FAILS),
            Step::Begin("three", Ok(())),
            Step::Size("four", Err(DevStop::Failed)),
        ],
        [
            ("one", Some(b"123456xy")),
            ("two", Some(b"abc")),
            ("three", Some(b"")),
            ("four", None),
        ],
        3,
    ),
    // A failing `add` or `patch` still writes three bytes, where the file is there and has the range.
    (
        &[1, 2, 3, 4, 5, 6, 7, 8],
        &[
            Step::Size("one", Err(DevStop::Failed)),
            Step::Read("one", 2, Err(DevStop::Failed)),
            Step::Begin("one", FAILS),
            Step::Add("absent", b"wxyz", FAILS),
            Step::Patch("one", 6, b"abc", FAILS),
            Step::Patch("one", 2, b"abcd", FAILS),
            Step::Add("one", b"wxyz", FAILS),
            Step::Add("two", b"w", FAILS),
            Step::Size("one", Ok(11)),
        ],
        [
            ("one", Some(b"12abc678wxy")),
            ("two", Some(b"w")),
            ("three", None),
            ("absent", None),
        ],
        0,
    ),
];

#[test]
fn folders_in_memory(rt: HostRuntime) -> Result<(), Fail> {
    for (fail_at, steps, left, drawn) in FOLDERS {
        let mut folder = MemFolder::new(rt.alloc(), fail_at)?;
        folder.put_file("one", b"12345678")?;
        folder.put_file("two", b"")?;
        assert_steps(&rt, &mut folder, steps);
        for (name, bytes) in left {
            assert_eq!(rt; folder.file(name), bytes, "in {name}");
        }
        assert_eq!(rt; folder.drawn(), drawn);
    }
    one_file_changes();
    Ok(())
}

#[test]
fn an_input_in_memory(rt: HostRuntime) -> Result<(), Fail> {
    let mut intake = MemIntake::new(rt.alloc(), b"12345", &[2])?;
    for (taken, holds) in [
        (Ok(3), *b"123"),
        (Err(Failed), *b"..."),
        (Ok(2), *b"45."),
        (Ok(0), *b"..."),
    ] {
        let mut buf = *b"...";
        assert_eq!(rt; intake.take(&mut buf), taken);
        assert_eq!(rt; buf, holds);
    }
    Ok(())
}

// The second call fails, or takes nothing.
#[test]
fn outputs_in_memory(rt: HostRuntime) -> Result<(), Fail> {
    let mut sink = MemSink::new(rt.alloc(), &[2])?;
    let mut stuck = MemSink::stuck(rt.alloc(), &[2])?;
    for (piece, put, stuck_at) in [
        (b"12", Ok(2), Ok(2)),
        (b"34", Err(DevStop::Failed), Ok(0)),
        (b"56", Ok(2), Ok(2)),
    ] {
        assert_eq!(rt; sink.put(piece), put);
        assert_eq!(rt; stuck.put(piece), stuck_at);
    }
    assert_eq!(rt; sink.bytes(), b"1256".as_slice());
    assert_eq!(rt; stuck.bytes(), b"1256".as_slice());
    Ok(())
}

// An empty piece makes no call.
#[test]
fn whole_pieces(rt: HostRuntime) -> Result<(), Fail> {
    let mut sink = MemSink::new(rt.alloc(), &[2])?;
    let mut stuck = MemSink::stuck(rt.alloc(), &[2])?;
    for (piece, put) in [
        (&b"12"[..], Ok(())),
        (b"", Ok(())),
        (b"34", FAILS),
        (b"56", Ok(())),
    ] {
        assert_eq!(rt; put_all(&mut sink, piece), put);
        assert_eq!(rt; put_all(&mut stuck, piece), put);
    }
    assert_eq!(rt; sink.bytes(), b"1256".as_slice());
    assert_eq!(rt; stuck.bytes(), b"1256".as_slice());
    Ok(())
}

#[test]
fn stops_by_their_cause(rt: HostRuntime) {
    assert_eq!(rt; DevStop::from(Memory), DevStop::Memory);
    assert_eq!(rt; Stop::<u8>::from(DevStop::Failed), Stop::Device);
    assert_eq!(rt; Stop::<u8>::from(DevStop::Memory), Stop::Memory);
}
