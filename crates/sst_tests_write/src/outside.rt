//! Runs of `write` over objects whose calls fail.
use crate::files::written_file;
use sst_cli::Status;
use sst_tests_shared::worked_run::{
    NAME, Object, Ran, WORDS, failing_at, holds, other_is_as_it_was, printed, run_on,
    run_with_stuck_sink,
};
use std::alloc::Global;
use std::process::Abort;
use std::test::Fail;

/// A good input.
const LINE: &str = "61 1 P 78\n";

/// What is printed when it was written.
const DONE: &str = "wrote 1\n";

/// Asserts that a run in which one call was to fail ended as it has to, and answers whether one did. The file that
/// is written where none did is told.
fn failed(rt: &impl Abort, ran: &Ran, file: &[u8]) -> bool {
    assert!(rt; other_is_as_it_was(ran));
    if ran.status == Status::Done {
        assert!(rt; holds(ran, NAME, file));
        assert!(rt; printed(ran, DONE));
        return false;
    }
    assert_eq!(rt; ran.status, Status::Device);
    assert!(rt; DONE.as_bytes().starts_with(ran.sink.bytes()));
    true
}

/// A run in which the call of this number of this object fails.
fn run_failing(alloc: Global, object: Object, number: u64) -> Result<Ran, Fail> {
    let numbers = [number];
    run_on(alloc, &WORDS, LINE.as_bytes(), failing_at(object, &numbers))
}

#[test]
fn each_failing_call(rt: HostRuntime) -> Result<(), Fail> {
    let file = written_file(rt.alloc())?;
    // The folder begins the file and adds to it; the input gives its line and its end; the output is put one text.
    for (object, calls) in [(Object::Folder, 2), (Object::Intake, 2), (Object::Sink, 1)] {
        for number in 1..=calls {
            let ran = run_failing(rt.alloc(), object, number)?;
            assert!(rt; failed(&rt, &ran, &file), "{object:?} {number}");
        }
        let ran = run_failing(rt.alloc(), object, calls + 1)?;
        assert!(rt; !failed(&rt, &ran, &file), "{object:?}");
    }
    Ok(())
}

#[test]
fn an_output_that_takes_nothing(rt: HostRuntime) -> Result<(), Fail> {
    let ran = run_with_stuck_sink(rt.alloc(), &WORDS, LINE.as_bytes())?;
    assert_eq!(rt; ran.status, Status::Device);
    assert!(rt; printed(&ran, ""));
    assert!(rt; other_is_as_it_was(&ran));
    Ok(())
}
