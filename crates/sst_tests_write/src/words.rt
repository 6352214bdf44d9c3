//! Words that are no command: nothing is touched but the output.
//!
//! The words are this project's own.
use sst_cli::{Status, run};
use sst_device::{DevStop, MemFolder, MemIntake, Sink};
use sst_tests_shared::asserting::assert_no_command;
use sst_tests_shared::worked_run::NAME;
use std::test::Fail;

/// An input that is good for `write`.
const LINE: &str = "61 1 P 78\n";

/// Words that are no command.
static NO_COMMANDS: [&[&str]; 32] = [
    &[],
    &["write"],
    &["write", "block"],
    &["write", "plain", "x"],
    &["write", "block", ""],
    &["write", "block", NAME, "x"],
    &["Write", "block", NAME],
    &["write ", "block", NAME],
    &["", "write", "block", NAME],
    // Twice, the same and another.
    &["write", "block", NAME, "block=64", "block=64"],
    &["write", "block", NAME, "block=64", "block=4096"],
    &["write", "block", NAME, "block=64", ""],
    &["write", "block", NAME, "restart=2", "block=64", "restart=2"],
    &[
        "write",
        "block",
        NAME,
        "index-restart=1",
        "restart=1",
        "index-restart=16",
    ],
    &["write", "block", NAME, "version=3", "version=3"],
    &["write", "block", NAME, "parts=1", "version=3", "parts=0"],
    // In another place.
    &["write", "block=64", "block", NAME],
    &["write", "version=3", "block", NAME],
    &["write", "block", "", "block=64"],
    // For another command.
    &["calls", NAME, "block=64"],
    &["calls", NAME, "version=2"],
    &["scan", NAME, "parts=0"],
    &["write", "plain", NAME, "block=64"],
    // The words of calls.
    &["calls"],
    &["calls", ""],
    &["calls", NAME, "x"],
    &["calls", NAME, NAME],
    &["calls", "block", NAME],
    &["Calls", NAME],
    &["calls ", NAME],
    &["get", NAME],
    &[NAME, "calls"],
];

/// Words that are no option.
static NO_OPTIONS: [&str; 57] = [
    "restart=0",
    "restart=65537",
    "restart=016",
    "index-restart=0",
    "index-restart=65537",
    "index_restart=1",
    // Versions that aren't written: one less, one more, 2^32 + 2, 2^64 + 2.
    "version=0",
    "version=1",
    "version=5",
    "version=02",
    "version=4294967298",
    "version=18446744073709551618",
    "version=",
    "version=+2",
    "version=2 ",
    "Version=2",
    "versions=2",
    "format_version=2",
    // Parts: past the limit by one, 2^32, 2^64 + 1; leading zeros.
    "parts=65537",
    "parts=4294967296",
    "parts=18446744073709551617",
    "parts=00",
    "parts=01",
    "parts=",
    "parts=-1",
    "Parts=1",
    "part=1",
    // Past the limits: by one, by much, 2^32 + 64, 2^64 + 64.
    "block=63",
    "block=0",
    "block=1",
    "block=16777217",
    "block=4294967360",
    "block=18446744073709551680",
    // Leading zeros.
    "block=064",
    "block=0064",
    "block=00",
    // No number, a sign, other digits.
    "block=",
    "block=+64",
    "block=-64",
    "block=0x40",
    "block=6 4",
    "block= 64",
    "block=64 ",
    "block=64.",
    "block=64\n",
    "block=six",
    "block==64",
    // Other names.
    "Block=64",
    "BLOCK=64",
    "block64",
    "block",
    "blocks=64",
    " block=64",
    "lock=64",
    "=64",
    "64",
    "",
];

#[test]
fn words_that_are_no_command(rt: HostRuntime) -> Result<(), Fail> {
    for words in NO_COMMANDS {
        assert_no_command(rt.alloc(), words, LINE)?;
    }
    for word in NO_OPTIONS {
        assert_no_command(rt.alloc(), &["write", "block", NAME, word], LINE)?;
    }
    Ok(())
}

/// An output for which memory has run out.
#[derive(Clone, Copy)]
struct Wanting;

impl Sink for Wanting {
    ghost use Rattle.std.specs.Prelude.{None};

    ghost written = { λ _. None };

    ghost faults = { λ _. 0 };

    fn put(&mut self, _piece: &[u8]) -> Result<usize, DevStop> {
        Err(DevStop::Memory)
    }
}

#[test]
fn an_output_without_memory(rt: HostRuntime) -> Result<(), Fail> {
    let mut folder = MemFolder::new(rt.alloc(), &[])?;
    let mut input = MemIntake::new(rt.alloc(), b"", &[])?;
    let ended = run(rt.alloc(), &[], &mut folder, &mut input, &mut Wanting);
    assert_eq!(rt; ended, Status::Memory);
    Ok(())
}
