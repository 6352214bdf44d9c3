//! Inputs of `write` that are refused for a line, and what is told of each.
//!
//! The texts are this project's own.
use sst_tests_shared::worked_run::{refused, written};
use std::test::Fail;

/// Inputs, and what is told.
static REFUSED: [(&str, &str); 39] = [
    // No whole line.
    ("61 1 P 78", "input 1 line\n"),
    ("61 1 P 7\n61 1 P 78\n", "input 1 line\n"),
    ("\n", "input 1 line\n"),
    ("61 1 P 78\r\n", "input 1 line\n"),
    // The blanks between the fields.
    ("61  1 P 78\n", "input 1 line\n"),
    ("61\t1 P 78\n", "input 1 line\n"),
    (" 61 1 P 78\n", "input 1 line\n"),
    ("61 1 P 78 \n", "input 1 line\n"),
    ("61 1 P\n", "input 1 line\n"),
    ("61 1 P \n", "input 1 line\n"),
    // Keys and values.
    ("61 1 P 7\n", "input 1 line\n"),
    ("6g 1 P 78\n", "input 1 line\n"),
    ("-- 1 P 78\n", "input 1 line\n"),
    // Sequence numbers.
    ("61 72057594037927936 P 78\n", "input 1 line\n"),
    ("61 18446744073709551617 P 78\n", "input 1 line\n"),
    ("61 01 P 78\n", "input 1 line\n"),
    ("61 +1 P 78\n", "input 1 line\n"),
    // Kinds.
    ("61 1 p 78\n", "input 1 line\n"),
    ("61 1 X 78\n", "input 1 line\n"),
    ("61 1 PP 78\n", "input 1 line\n"),
    // No line end at the end of the input.
    ("61 1 P 78\n62 1 P 78", "input 2 line\n"),
    ("61 1 P 78\n6", "input 2 line\n"),
    // A carriage return before a line end.
    ("61 1 P 78\n62 1 P 78\r\n", "input 2 line\n"),
    // An empty line in the middle, and at the end.
    ("61 1 P 78\n62 1 P 78\n\n63 1 P 78\n", "input 3 line\n"),
    ("61 1 P 78\n\n", "input 2 line\n"),
    // Sequence numbers: leading zeros, and 2^56.
    ("61 1 P 78\n62 0 P 78\n63 00 P 78\n", "input 3 line\n"),
    ("61 1 P 78\n62 01 P 78\n", "input 2 line\n"),
    (
        "61 72057594037927935 P 78\n62 72057594037927936 P 78\n",
        "input 2 line\n",
    ),
    // A dash beside digits.
    ("- 1 P 78\n61- 1 P 78\n", "input 2 line\n"),
    // The first of two lines that are none.
    ("61 1 P 78\n62 1 P 7\n63 1 P 7\n", "input 2 line\n"),
    // One that would be out of order too.
    ("62 1 P 78\n61 1 P 7\n", "input 2 line\n"),
    // A lesser key; the empty one is the least.
    (
        "61 1 P 78\n63 1 P 78\n62 1 P 78\n",
        "input 3 not-increasing\n",
    ),
    ("6161 1 P 78\n61 1 P 78\n", "input 2 not-increasing\n"),
    ("61 1 P 78\n- 1 P 78\n", "input 2 not-increasing\n"),
    // One key: the same sequence number, and a greater one.
    ("61 1 P 78\n61 1 P 78\n", "input 2 not-increasing\n"),
    ("61 1 P 78\n61 2 P 78\n", "input 2 not-increasing\n"),
    // One key and sequence number: the kinds come in falling order.
    (
        "61 1 M 78\n61 1 P 78\n61 1 P 79\n",
        "input 3 not-increasing\n",
    ),
    ("61 1 P 78\n61 1 M 78\n", "input 2 not-increasing\n"),
    // The first of two lines that are refused.
    (
        "62 1 P 78\n61 1 P 78\n61 1 P 7\n",
        "input 2 not-increasing\n",
    ),
];

#[test]
fn refused_lines(rt: HostRuntime) -> Result<(), Fail> {
    for (input, text) in REFUSED {
        let ran = written(rt.alloc(), input.as_bytes())?;
        assert!(rt; refused(&ran, text), "on {input}");
    }
    Ok(())
}
