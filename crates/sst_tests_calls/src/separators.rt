//! Calls on files whose separators are no keys, or are before a key of their block, and on one block to which the index
//! leads twice.
//!
//! The bytes of the files are those of an independent program, or were written by hand, in hex digits. The answers are
//! worked by hand from the index, as the definitions in specs/Way.antt of `sst_bbt_spec` have it.
//!
//! RocksDB: `BlockBasedTableIterator` in table/block_based/block_based_table_iterator.cc goes by the index; the separators
//! that a writer may choose are in table/block_based/index_builder.h.
use crate::foreign::assert_all;
use std::test::Fail;

/// A file of the same entries whose index row's key is `616161 5 D`, though entries come after it.
static BEHIND_SEPARATOR: [&str; 14] = [
    "000b01616161010900000000000031",
    "0308000005000000000000",
    "02090162020300000000000032",
    "010900620707000000000000",
    "020801010100000000000033",
    "0000000001000000",
    "0023afbad4",
    "000b0261616100050000000000000047",
    "0000000001000000",
    "00bd7af2b9",
    "000000000100000000c0f2a1b0",
    "0169084c18",
    "000000000000000000000000000000000000000000000000000000000000000000000000",
    "02000000f7cff485b741e288",
];

/// Calls on that file, and their answers.
static ON_BEHIND_SEPARATOR: [(&str, &str); 4] = [
    // The calls without a target go over all entries.
    (
        "first\nnext\nnext\nlast\nprev\n",
        "616161 9 P 31\n616161 5 D -\n616162 3 M 32\n6162 1 P 33\n6162 7 S -\n",
    ),
    // Behind the separator Seek ends nowhere, though there are entries.
    (
        "seek 616161 5\nseek 616161 4\nnext\n",
        "616161 5 D -\nnone\nnot-positioned\n",
    ),
    // So Get finds none there.
    (
        "get 616161 9\nget 616161 4\nget 616162 3\nget 6162 9\n",
        "616161 9 P 31\nnone\nnone\nnone\n",
    ),
    // SeekForPrev lands at the last entry of all.
    (
        "seek_for_prev 616161 5\nseek_for_prev 616161 4\nprev\nseek_for_prev 6162 9\nseek_for_prev 616161 20\n",
        "616161 5 D -\n6162 1 P 33\n6162 7 S -\n6162 1 P 33\nnone\n",
    ),
];

/// A file of the same entries in two blocks of three and two. The separators are `616161 5 D` and `6162 7 S`, though an
/// entry of their block comes after each.
static BEHIND_SEPARATORS: [&str; 17] = [
    "000b01616161010900000000000031",
    "0308000005000000000000",
    "02090162020300000000000032",
    "0000000001000000",
    "00eb6121ba",
    "000a0061620707000000000000",
    "000a016162010100000000000033",
    "0000000001000000",
    "004e7e14cb",
    "000b026161610005000000000000002f",
    "000a02616207070000000000003423",
    "0000000001000000",
    "00e9da9ce5",
    "0000000001000000",
    "00c0f2a1b0",
    "018801085c27",
    "000000000000000000000000000000000000000000000000000000000000000000000002000000f7cff485b741e288",
];

/// Calls on that file, and their answers.
static ON_BEHIND_SEPARATORS: [(&str, &str); 4] = [
    // Those without a target go over all entries.
    (
        "first\nnext\nnext\nnext\nnext\nnext\nlast\nprev\nprev\n",
        "616161 9 P 31\n616161 5 D -\n616162 3 M 32\n6162 7 S -\n6162 1 P 33\nnone\n6162 1 P 33\n6162 7 S -\n616162 3 M 32\n",
    ),
    // From a target behind the first separator Seek begins in the second block, though an entry of the first is after it.
    (
        "seek 616161 5\nnext\nseek 616161 4\nprev\nseek 616162 3\nget 616162 3\nget 616161 9\n",
        "616161 5 D -\n616162 3 M 32\n6162 7 S -\n616162 3 M 32\n6162 7 S -\nnone\n616161 9 P 31\n",
    ),
    // Behind the last separator Seek ends nowhere, and Get finds none.
    (
        "seek 6162 7\nnext\nseek 6162 6\nnext\nget 6162 6\nget 6162 7\n",
        "6162 7 S -\n6162 1 P 33\nnone\nnot-positioned\nnone\n6162 7 S -\n",
    ),
    // SeekForPrev goes back from the block to which the index leads; behind all separators it lands at the last entry.
    (
        "seek_for_prev 616161 5\nseek_for_prev 616162 3\nprev\nseek_for_prev 6162 7\nseek_for_prev 6162 3\nseek_for_prev 616161 20\n",
        "616161 5 D -\n616162 3 M 32\n616161 5 D -\n6162 1 P 33\n6162 1 P 33\nnone\n",
    ),
];

/// A file with the one data block of `61 1 P 78`, to which two rows of the index lead: the user keys of their separators
/// are 62 and 63.
pub(crate) static ONE_BLOCK_TWICE: [&str; 11] = [
    "00090161010100000000000078",
    "0000000001000000",
    "0084dd8874",
    "00090262ffffffffffffffff0015",
    "00090263ffffffffffffffff0015",
    "0000000001000000",
    "00d20ce901",
    "0000000001000000",
    "00c0f2a1b0",
    "0143081a24",
    "00000000000000000000000000000000000000000000000000000000000000000000000002000000f7cff485b741e288",
];

/// Calls on that file, and their answers.
static ON_ONE_BLOCK_TWICE: [(&str, &str); 4] = [
    // Next goes over the block twice, and Prev back.
    (
        "first\nnext\nnext\nlast\nprev\nprev\n",
        "61 1 P 78\n61 1 P 78\nnone\n61 1 P 78\n61 1 P 78\nnone\n",
    ),
    // Seek lands in the first of the two, and behind its separator in the second.
    (
        "seek 61 1\nnext\nnext\nseek 61 0\nseek 62 0\nprev\nget 61 1\nget 61 0\n",
        "61 1 P 78\n61 1 P 78\nnone\n61 1 P 78\nnone\nnot-positioned\n61 1 P 78\n61 1 P 78\n",
    ),
    // A target's tag ends with the greatest byte, 255, so the first separator isn't before the first of these.
    (
        "seek 62 72057594037927935\nseek 62 72057594037927934\nseek_for_prev 62 72057594037927935\nget 62 72057594037927935\n",
        "61 1 P 78\nnone\n61 1 P 78\nnone\n",
    ),
    // SeekForPrev, too.
    (
        "seek_for_prev 61 1\nnext\nseek_for_prev 62 1\nseek_for_prev 63 9\nseek_for_prev 64 1\nprev\nseek_for_prev 61 2\n",
        "61 1 P 78\n61 1 P 78\n61 1 P 78\n61 1 P 78\n61 1 P 78\n61 1 P 78\nnone\n",
    ),
];

#[test]
fn entries_after_separators(rt: HostRuntime) -> Result<(), Fail> {
    assert_all(rt.alloc(), &BEHIND_SEPARATOR, &ON_BEHIND_SEPARATOR)?;
    assert_all(rt.alloc(), &BEHIND_SEPARATORS, &ON_BEHIND_SEPARATORS)?;
    assert_all(rt.alloc(), &ONE_BLOCK_TWICE, &ON_ONE_BLOCK_TWICE)
}

/// A file whose one separator is before a key of its block, in hex digits, part by part. The data block has the one entry
/// 6b657930303131 1 P 26, and its index row the separator 6b6579303031 with the tag 4.
static BROKEN: [&str; 8] = [
    // The data block, and its trailer.
    "000f016b65793030313101010000000000002600000000",
    "0100000000ed14b05c",
    // The index block, and its trailer.
    "000e026b65793030310400000000000000001b00000000",
    "010000000096938111",
    // The metaindex block, and its trailer.
    "000000000100000000c0f2a1b0",
    // The footer: the two handles, zeros, the version and the magic number.
    "014008201b0000000000000000000000000000",
    "00000000000000000000000000000000000000000000",
    "02000000f7cff485b741e288",
];

/// Calls on that file, and their answers. The separator 6b6579303031 is before the target 6b657930303131, so the index leads
/// past the block.
static ON_BROKEN: [(&str, &str); 1] = [(
    "seek 6b657930303131 7\nget 6b657930303131 1\nseek_for_prev 6b657930303132 1\nfirst\nlast\n",
    "none\nnone\n6b657930303131 1 P 26\n6b657930303131 1 P 26\n6b657930303131 1 P 26\n",
)];

/// A file of three blocks of one user key: k 9, k 5 and k 2. The separator of each is its own key.
static ONE_USER: [&str; 9] = [
    // The data blocks, each with its trailer.
    "0009016b010900000000000078000000000100000000422ed828",
    "0009016b0105000000000000790000000001000000009cb3b402",
    "0009016b01020000000000007a000000000100000000253757f5",
    // The index block, and its trailer.
    "0009026b010900000000000000150009026b01050000000000001a150009026b01020000000000003415",
    "000000000100000000173d0ec2",
    // The metaindex block, and its trailer.
    "000000000100000000c0f2a1b0",
    // The footer: the two handles, zeros, the version and the magic number.
    "018501084e32000000000000000000000000000000",
    "0000000000000000000000000000000000000000",
    "02000000f7cff485b741e288",
];

/// Calls on that file, and their answers.
static ON_ONE_USER: [(&str, &str); 3] = [
    (
        "get 6b 10\nget 6b 9\nget 6b 8\nget 6b 5\nget 6b 4\nget 6b 2\nget 6b 1\n",
        "6b 9 P 78\n6b 9 P 78\n6b 5 P 79\n6b 5 P 79\n6b 2 P 7a\n6b 2 P 7a\nnone\n",
    ),
    (
        "seek 6b 4\nseek 61 0\nseek 6b 1\nseek 6c 9\n",
        "6b 2 P 7a\n6b 9 P 78\nnone\nnone\n",
    ),
    (
        "seek_for_prev 6b 5\nseek_for_prev 6b 6\nseek_for_prev 6b 10\nseek_for_prev 6b 0\n",
        "6b 5 P 79\n6b 9 P 78\nnone\n6b 2 P 7a\n",
    ),
];

/// A file of two blocks: b 1 and d 1, and then h 1. The separator of the first is e with the greatest tag of the kind
/// Value, which is no key of the file; that of the second is its own key.
static BETWEEN: [&str; 9] = [
    // The data blocks, each with its trailer.
    "00090162010100000000000078000901640101000000000000790000000001000000",
    "00a02d954a",
    "0009016801010000000000007a0000000001000000002cfc287f",
    // The index block, and its trailer.
    "0009026501ffffffffffffff002200090268010100000000000027150000000001000000",
    "004f44ee75",
    // The metaindex block, and its trailer.
    "000000000100000000c0f2a1b0",
    // The footer: the two handles, zeros, the version and the magic number.
    "016a0841240000000000000000000000000000",
    "00000000000000000000000000000000000000000000",
    "02000000f7cff485b741e288",
];

/// Calls on that file, and their answers. Past the last key of the first block, d 1, Seek goes on to the next.
static ON_BETWEEN: [(&str, &str); 4] = [
    (
        "seek 63 9\nseek 64 1\nseek 64 0\nseek 65 5\nseek 66 5\nseek 68 0\nseek 69 1\n",
        "64 1 P 79\n64 1 P 79\n68 1 P 7a\n68 1 P 7a\n68 1 P 7a\nnone\nnone\n",
    ),
    (
        "get 64 1\nget 68 1\nget 65 5\nget 64 0\n",
        "64 1 P 79\n68 1 P 7a\nnone\nnone\n",
    ),
    (
        "seek_for_prev 61 1\nseek_for_prev 63 1\nseek_for_prev 65 5\nseek_for_prev 66 5\nseek_for_prev 69 1\n",
        "none\n62 1 P 78\n64 1 P 79\n64 1 P 79\n68 1 P 7a\n",
    ),
    (
        "first\nnext\nnext\nnext\nlast\nprev\n",
        "62 1 P 78\n64 1 P 79\n68 1 P 7a\nnone\n68 1 P 7a\n64 1 P 79\n",
    ),
];

/// A file of two blocks: a 1 and c 1, and then d 1. The separator of the first is b with the tag 4, which is before the
/// second key of its block; that of the second is its own key.
static BEFORE_A_KEY: [&str; 9] = [
    // The data blocks, each with its trailer.
    "00090161010100000000000078000901630101000000000000790000000001000000",
    "000e776754",
    "0009016401010000000000007a0000000001000000000863c396",
    // The index block, and its trailer.
    "000902620400000000000000002200090264010100000000000027150000000001000000",
    "008f002026",
    // The metaindex block, and its trailer.
    "000000000100000000c0f2a1b0",
    // The footer: the two handles, zeros, the version and the magic number.
    "016a0841240000000000000000000000000000",
    "00000000000000000000000000000000000000000000",
    "02000000f7cff485b741e288",
];

/// Calls on that file, and their answers: a Seek of c leads to the block after it.
static ON_BEFORE_A_KEY: [(&str, &str); 1] = [(
    "seek 63 1\nget 63 1\nget 61 1\nseek 62 1\nseek_for_prev 63 1\nseek_for_prev 63 2\n",
    "64 1 P 7a\nnone\n61 1 P 78\n63 1 P 79\n63 1 P 79\n63 1 P 79\n",
)];

#[test]
fn separators_that_are_no_keys(rt: HostRuntime) -> Result<(), Fail> {
    assert_all(rt.alloc(), &BROKEN, &ON_BROKEN)?;
    assert_all(rt.alloc(), &ONE_USER, &ON_ONE_USER)?;
    assert_all(rt.alloc(), &BETWEEN, &ON_BETWEEN)?;
    assert_all(rt.alloc(), &BEFORE_A_KEY, &ON_BEFORE_A_KEY)
}
