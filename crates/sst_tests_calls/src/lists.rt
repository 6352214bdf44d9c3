//! Calls answered from files that are written here: `sst calls FILE` with call lines on its input.
//!
//! The answers are worked by hand from the lists.
//!
//! RocksDB: `DB::Get` in include/rocksdb/db.h and `Iterator` in include/rocksdb/iterator.h.
use sst_tests_shared::asserting::assert_answered;
use sst_tests_shared::worked_run::file_of_lines;
use std::test::Fail;

/// The lines of a list, calls on it, and their answers.
static LISTS: [(&str, &str, &str); 9] = [
    // The first run.
    (
        "61 1 P 78\n",
        "get 61 1\nget 61 0\nfirst\nnext\n",
        "61 1 P 78\nnone\n61 1 P 78\nnone\n",
    ),
    ("61 1 P 78\n", "", ""),
    // The empty list.
    (
        "",
        "first\nnext\nlast\nprev\n",
        "none\nnot-positioned\nnone\nnot-positioned\n",
    ),
    (
        "",
        "next\nprev\nget 61 1\nseek - 0\nnext\nseek_for_prev ff 0\nprev\n",
        "not-positioned\nnot-positioned\nnone\nnone\nnot-positioned\nnone\nnot-positioned\n",
    ),
    // Versions of one key: a snapshot sees the newest that isn't newer than it.
    (
        "6b 9 P 39\n6b 5 P 35\n6b 2 P 32\n",
        "get 6b 9\nget 6b 8\nget 6b 5\nget 6b 4\nget 6b 1\nget 6b 72057594037927935\nget 6b 0\n",
        "6b 9 P 39\n6b 5 P 35\n6b 5 P 35\n6b 2 P 32\nnone\n6b 9 P 39\nnone\n",
    ),
    (
        "6b 9 P 39\n6b 5 P 35\n6b 2 P 32\n",
        "seek_for_prev 6b 5\nseek_for_prev 6b 10\nprev\nseek 6b 4\nprev\nnext\nseek 6b 1\n",
        "6b 5 P 35\nnone\nnot-positioned\n6b 2 P 32\n6b 5 P 35\n6b 2 P 32\nnone\n",
    ),
    // The greatest keys: behind the last entry there is nowhere, and no way back from there.
    (
        "ff 1 P 61\nffff 1 P 62\n",
        "seek ffff 0\nprev\nlast\nprev\nprev\nprev\n",
        "none\nnot-positioned\nffff 1 P 62\nff 1 P 61\nnone\nnot-positioned\n",
    ),
    // Each kind, the empty key and the empty value, digits of either case, the last sequence number.
    (
        "- 9 S -\n- 5 M AB\n- 5 P -\n- 0 D -\nfF 72057594037927935 P aBcD\n",
        "first\nnext\nnext\nnext\nnext\nnext\n",
        "- 9 S -\n- 5 M ab\n- 5 P -\n- 0 D -\nff 72057594037927935 P abcd\nnone\n",
    ),
    // Of two entries with one key and sequence number the first is the newest. What was deleted is shown.
    (
        "- 9 S -\n- 5 M AB\n- 5 P -\n- 0 D -\nfF 72057594037927935 P aBcD\n",
        "get - 5\nget - 4\nget 00 9\nget Ff 72057594037927935\nseek - 4\nget - 9\nnext\nseek_for_prev - 8\n",
        "- 5 M ab\n- 0 D -\nnone\nff 72057594037927935 P abcd\n- 0 D -\n- 9 S -\nff 72057594037927935 P abcd\n- 9 S -\n",
    ),
];

#[test]
fn lists(rt: HostRuntime) -> Result<(), Fail> {
    for (lines, calls, text) in LISTS {
        let file = file_of_lines(rt.alloc(), lines)?;
        assert_answered(rt.alloc(), &file, calls, text)?;
    }
    Ok(())
}
