//! Calls on files whose index is in parts, or has user keys, where its separators aren't the list's.
//!
//! The bytes of the blocks are worked by hand, in hex digits, with checksums of an independent program. The answers are worked
//! by hand from the index: a call goes by the top block to a part, by the part to a data block, and where the part has no
//! separator that isn't before the target, on to the next part.
//!
//! RocksDB: `PartitionedIndexIterator` in table/block_based/partitioned_index_iterator.cc, `IndexBlockIter` in
//! table/block_based/block.cc.
use crate::foreign::assert_rows;
use sst_tests_shared::named_file::{INDEX_TYPE, Named, USER_KEY, file_named};
use sst_tests_shared::small_file::{DATA, INDEX};
use std::test::Fail;

/// That the index has two levels.
const PARTED: &[(&str, &str)] = &[(INDEX_TYPE, "02000000")];

/// A file, calls on it, and their answers.
type Answered = (Named, &'static [(&'static str, &'static str)]);

/// Two parts of one row: the data blocks b 1 and d 1, and h 1. The separator of the first is e in the part, and f in the top
/// block.
const BETWEEN: Answered = (
    Named::Blocks(
        &[
            "0009016201010000000000007800090164010100000000000079",
            "0000000001000000",
            "00a02d954a",
            "0009016801010000000000007a",
            "0000000001000000",
            "002cfc287f",
            // The parts, at 65 and 92.
            "0009026501ffffffffffffff0022",
            "0000000001000000",
            "007f271a44",
            "0009026801010000000000002715",
            "0000000001000000",
            "0096d86acb",
            // The top block, at 119.
            "0009026601090000000000004116",
            "0009026801010000000000005c16",
            "0000000001000000",
            "004c70748c",
        ],
        (119, 36),
        PARTED,
    ),
    &[
        // Between the two separators of the first part Seek begins in the second, and SeekForPrev ends in the first.
        (
            "seek 6562 1\nprev\nseek_for_prev 6562 1\nnext\nget 6562 1\n",
            "68 1 P 7a\n64 1 P 79\n64 1 P 79\n68 1 P 7a\nnone\n",
        ),
        (
            "seek 63 9\nseek 64 0\nseek 65 1\nseek 67 1\nseek 68 1\nseek 69 1\n",
            "64 1 P 79\n68 1 P 7a\n68 1 P 7a\n68 1 P 7a\n68 1 P 7a\nnone\n",
        ),
        (
            "seek_for_prev 67 1\nseek_for_prev 69 1\nprev\nseek_for_prev 61 1\nget 64 1\nget 68 1\nget 68 0\n",
            "64 1 P 79\n68 1 P 7a\n64 1 P 79\nnone\n64 1 P 79\n68 1 P 7a\nnone\n",
        ),
        // Over the border of the parts, there and back.
        (
            "first\nnext\nnext\nnext\nlast\nprev\nprev\nprev\n",
            "62 1 P 78\n64 1 P 79\n68 1 P 7a\nnone\n68 1 P 7a\n64 1 P 79\n62 1 P 78\nnone\n",
        ),
    ],
);

/// Parts of the data blocks b 1 and d 1, and of h 1. The separator of the first part in the top block is c, which is before d.
const BEFORE_A_KEY: Answered = (
    Named::Blocks(
        &[
            "00090162010100000000000078",
            "0000000001000000",
            "00c75a3738",
            "00090164010100000000000079",
            "0000000001000000",
            "00f5b2ffa2",
            "0009016801010000000000007a",
            "0000000001000000",
            "002cfc287f",
            // The parts, at 78 and 119.
            "0009026201010000000000000015",
            "0009026401010000000000001a15",
            "0000000001000000",
            "00a63d68fa",
            "0009026801010000000000003415",
            "0000000001000000",
            "003b19d331",
            // The top block, at 146.
            "0009026301ffffffffffffff4e24",
            "0009026801010000000000007716",
            "0000000001000000",
            "0062d7f900",
        ],
        (146, 36),
        PARTED,
    ),
    // No target leads to d, but the steps go over it.
    &[
        (
            "seek 62 1\nnext\nseek 64 1\nget 64 1\nget 62 1\nseek 63 9\n",
            "62 1 P 78\n64 1 P 79\n68 1 P 7a\nnone\n62 1 P 78\n68 1 P 7a\n",
        ),
        (
            "seek_for_prev 64 1\nseek_for_prev 6262 1\nseek_for_prev 68 2\nprev\n",
            "64 1 P 79\n62 1 P 78\n64 1 P 79\n62 1 P 78\n",
        ),
    ],
);

/// Two rows of the top block lead to the one part of `61 1 P 78`: their separators are b and c.
const ONE_PART_TWICE: Answered = (
    Named::Blocks(
        &[
            DATA,
            INDEX,
            "00090262ffffffffffffffff1a16",
            "00090263ffffffffffffffff1a16",
            "0000000001000000",
            "005a1e963a",
        ],
        (53, 36),
        PARTED,
    ),
    &[
        (
            "first\nnext\nnext\nlast\nprev\nprev\n",
            "61 1 P 78\n61 1 P 78\nnone\n61 1 P 78\n61 1 P 78\nnone\n",
        ),
        // Behind the part's separator Seek begins in the part once more.
        (
            "seek 61 0\nnext\nseek_for_prev 63 1\nprev\nget 61 0\n",
            "61 1 P 78\nnone\n61 1 P 78\n61 1 P 78\n61 1 P 78\n",
        ),
    ],
);

/// The data blocks a 1 and c 1, and d 1, whose separators are the user keys c and d.
const USER_KEYS: Answered = (
    Named::Blocks(
        &[
            "0009016101010000000000007800090163010100000000000079",
            "0000000001000000",
            "000e776754",
            "0009016401010000000000007a",
            "0000000001000000",
            "000863c396",
            // The index, at 65.
            "000102630022",
            "000102642715",
            "0000000001000000",
            "00c6735e4b",
        ],
        (65, 20),
        &[(USER_KEY, "01")],
    ),
    // No snapshot of a user key is behind that key as a separator.
    &[
        (
            "seek 63 1\nseek 63 0\nprev\nget 63 1\nget 63 0\n",
            "63 1 P 79\n64 1 P 7a\n63 1 P 79\n63 1 P 79\nnone\n",
        ),
        (
            "seek_for_prev 63 1\nseek_for_prev 63 2\nseek_for_prev 63 0\nseek_for_prev 64 2\nseek_for_prev 64 0\n",
            "63 1 P 79\n61 1 P 78\n63 1 P 79\n63 1 P 79\n64 1 P 7a\n",
        ),
        (
            "seek 64 0\nseek 6300 9\nseek 65 9\nseek_for_prev 65 9\n",
            "none\n64 1 P 7a\nnone\n64 1 P 7a\n",
        ),
    ],
);

#[test]
fn separators_of_parts(rt: HostRuntime) -> Result<(), Fail> {
    for (named, rows) in [BETWEEN, BEFORE_A_KEY, ONE_PART_TWICE, USER_KEYS] {
        let file = file_named(rt.alloc(), named)?;
        assert_rows(rt.alloc(), &file, rows)?;
    }
    Ok(())
}
