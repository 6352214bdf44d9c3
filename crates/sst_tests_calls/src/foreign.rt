//! Calls answered from files of another writer.
//!
//! The bytes of the files are those of an independent program, or were written by hand, in hex digits. The answers are
//! worked by hand from the lists, or, where a separator is before a key of its block, from the index.
//!
//! The form of an index is told by the properties alone, whatever the version: that is this project's own.
//!
//! RocksDB: `BlockBasedTableIterator` in table/block_based/block_based_table_iterator.cc goes by the index; what other
//! writers may choose in a block is in table/block_based/block_builder.cc, and which separators in
//! table/block_based/index_builder.h.
use sst_tests_shared::asserting::assert_answered;
use sst_tests_shared::small_file::{DATA, FRONT, INDEX, METAINDEX, TAIL};
use sst_tests_shared::worked_run::put_hex;
use std::alloc::Global;
use std::test::Fail;

/// Asserts that the calls are answered from the file in these pieces.
pub(crate) fn assert_all(
    alloc: Global,
    pieces: &[&str],
    rows: &[(&str, &str)],
) -> Result<(), Fail> {
    let mut file = Vec::new(alloc);
    put_hex(alloc, &mut file, pieces)?;
    assert_rows(alloc, &file, rows)
}

/// Asserts that the calls of each row are answered from the file.
pub(crate) fn assert_rows(alloc: Global, file: &[u8], rows: &[(&str, &str)]) -> Result<(), Fail> {
    for (calls, text) in rows {
        assert_answered(alloc, file, calls, text)?;
    }
    Ok(())
}

/// Files of the list `616161 9 P 31`, `616161 5 D -`, `616162 3 M 32`, `6162 7 S -`, `6162 1 P 33`, whose keys share a
/// front of three bytes, two or one.
static FOREIGN: [&[&str]; 13] = [
    // No row shares anything, and each stands at a restart; version 3.
    &[
        "000b01616161010900000000000031",
        "000b006161610005000000000000",
        "000b01616162020300000000000032",
        "000a0061620707000000000000",
        "000a016162010100000000000033",
        "000000000f0000001d0000002c0000003900000005000000",
        "00bd8c47bc",
        "000a0261620101000000000000005f",
        "0000000001000000",
        "0082b8e863",
        "000000000100000000c0f2a1b0",
        "018001086417",
        "0000000000000000000000000000000000000000000000000000000000000000000000",
        "03000000f7cff485b741e288",
    ],
    // No row shares anything, and the first alone stands at a restart; version 4.
    &[
        "000b01616161010900000000000031",
        "000b006161610005000000000000",
        "000b01616162020300000000000032",
        "000a0061620707000000000000",
        "000a016162010100000000000033",
        "0000000001000000",
        "00c85cb930",
        "000a0261620101000000000000004f",
        "0000000001000000",
        "0099c1df0f",
        "000000000100000000c0f2a1b0",
        "0170085417",
        "000000000000000000000000000000000000000000000000000000000000000000000000",
        "04000000f7cff485b741e288",
    ],
    // Rows share less than they could, and the first and the fourth stand at restarts; version 2.
    &[
        "000b01616161010900000000000031",
        "020900610005000000000000",
        "010a016162020300000000000032",
        "000a0061620707000000000000",
        "01090162010100000000000033",
        "000000002900000002000000",
        "0026524194",
        "000a0261620101000000000000004f",
        "0000000001000000",
        "0099c1df0f",
        "000000000100000000c0f2a1b0",
        "0170085417",
        "000000000000000000000000000000000000000000000000000000000000000000000000",
        "02000000f7cff485b741e288",
    ],
    // Every second row stands at a restart, and the others share all they can; version 4.
    &[
        "000b01616161010900000000000031",
        "0308000005000000000000",
        "000b01616162020300000000000032",
        "010900620707000000000000",
        "000a016162010100000000000033",
        "000000001a0000003500000003000000",
        "001a0d8918",
        "000a02616201010000000000000053",
        "0000000001000000",
        "009df1f99e",
        "000000000100000000c0f2a1b0",
        "0174085817",
        "000000000000000000000000000000000000000000000000000000000000000000000000",
        "04000000f7cff485b741e288",
    ],
    // The index row's key is after the last one, and has no kind that an entry has; version 3.
    &[
        "000b01616161010900000000000031",
        "0308000005000000000000",
        "000b01616162020300000000000032",
        "000a0061620707000000000000",
        "01090162010100000000000033",
        "000000001a00000002000000",
        "00761bc4a0",
        "000a02ffff0909090909090909004f",
        "0000000001000000",
        "00eb717b7c",
        "000000000100000000c0f2a1b0",
        "0170085417",
        "000000000000000000000000000000000000000000000000000000000000000000000000",
        "03000000f7cff485b741e288",
    ],
    // The metaindex comes first, the data block last, and between the index and it four bytes of no block; no zeros
    // follow the handles of the footer; version 4.
    &[
        "000000000100000000c0f2a1b0",
        "000a02616201010000000000002d47",
        "0000000001000000",
        "006fe2b6b1",
        "deadbeef",
        "000b01616161010900000000000031",
        "0308000005000000000000",
        "02090162020300000000000032",
        "010900620707000000000000",
        "020801010100000000000033",
        "0000000001000000",
        "0023afbad4",
        "0100080d17",
        "ffffffffffffffffffffffffffffffffffffffffffffffffffffffffffffffffffffffff",
        "04000000f7cff485b741e288",
    ],
    // Three blocks. The separators stand between the keys; the last is after all. Version 3.
    &[
        "000b01616161010900000000000031",
        "0308000005000000000000",
        "0000000001000000",
        "003b4b12f3",
        "000b01616162020300000000000032",
        "010900620707000000000000",
        "0000000001000000",
        "0077c13776",
        "000a016162010100000000000033",
        "0000000001000000",
        "001072c521",
        "000b02616161ff040000000000000022",
        "000a02616209050000000000002723",
        "00090262ffffffffffffffff4f16",
        "00000000100000001f00000003000000",
        "0087cb0c69",
        "0000000001000000",
        "00c0f2a1b0",
        "01ac01086a3d",
        "000000000000000000000000000000000000000000000000000000000000000000000003000000f7cff485b741e288",
    ],
    // A block for each entry. The rows of the index share what they can, and its type is 1. Version 4.
    &[
        "000b01616161010900000000000031",
        "0000000001000000",
        "00a3cc2c3e",
        "000b006161610005000000000000",
        "0000000001000000",
        "007d6b49f0",
        "000b01616162020300000000000032",
        "0000000001000000",
        "00946419ee",
        "000a0061620707000000000000",
        "0000000001000000",
        "0022042dde",
        "000a016162010100000000000033",
        "0000000001000000",
        "001072c521",
        "000b0261616101090000000000000017",
        "03080200050000000000001c16",
        "0209026202030000000000003717",
        "0109026207070000000000005315",
        "02080201010000000000006d16",
        "0000000001000000",
        "00261a8c8a",
        "002404726f636b7364622e626c6f636b2e62617365642e7461626c652e696e6465782e7479706501000000",
        "0000000001000000",
        "006511aa95",
        "001203726f636b7364622e70726f70657274696573db0133",
        "0000000001000000",
        "00c8ab2e61",
        "0193022088014e",
        "0000000000000000000000000000000000000000000000000000000000000000000004000000f7cff485b741e288",
    ],
    // The metaindex comes first, and the blocks stand in falling order, with four bytes of no block between. Version 2.
    &[
        "0000000001000000",
        "00c0f2a1b0",
        "000a0061620707000000000000",
        "000a016162010100000000000033",
        "0000000001000000",
        "004e7e14cb",
        "deadbeef",
        "000b01616161010900000000000031",
        "0308000005000000000000",
        "02090162020300000000000032",
        "0000000001000000",
        "00eb6121ba",
        "000b026161620203000000000000392f",
        "000a02616201010000000000000d23",
        "0000000001000000",
        "00d1c1ac18",
        "0100086d27",
        "00000000000000000000000000000000000000000000000000000000000000000000000002000000f7cff485b741e288",
    ],
    // User keys as separators of three blocks: the first user key itself, one between and one after all. Version 2.
    &[
        "000b01616161010900000000000031",
        "0308000005000000000000",
        "0000000001000000",
        "003b4b12f3",
        "000b01616162020300000000000032",
        "0000000001000000",
        "00946419ee",
        "000a0061620707000000000000",
        "020801010100000000000033",
        "0000000001000000",
        "006a8d591c",
        "0003026161610022",
        "000402616162002717",
        "0001027a4321",
        "00000000080000001100000003000000",
        "009922eab7",
        "001d01726f636b7364622e696e6465782e6b65792e69732e757365722e6b657901",
        "0000000001000000",
        "00418c85dc",
        "001203726f636b7364622e70726f70657274696573950129",
        "0000000001000000",
        "0045d646fb",
        "01c301206927",
        "000000000000000000000000000000000000000000000000000000000000000000000002000000f7cff485b741e288",
    ],
    // A block for each entry. The handles of the index are differences, since all its rows share with the one before. Version 3.
    &[
        "000b01616161010900000000000031",
        "0000000001000000",
        "00a3cc2c3e",
        "000b006161610005000000000000",
        "0000000001000000",
        "007d6b49f0",
        "000b01616162020300000000000032",
        "0000000001000000",
        "00946419ee",
        "000a0061620707000000000000",
        "0000000001000000",
        "0022042dde",
        "000a016162010100000000000033",
        "0000000001000000",
        "001072c521",
        "000b61616101090000000000000017",
        "0308000500000000000001",
        "020962020300000000000002",
        "010962070700000000000003",
        "0208010100000000000002",
        "0000000001000000",
        "0046243aa9",
        "002401726f636b7364622e696e6465782e76616c75652e69732e64656c74612e656e636f64656401",
        "0000000001000000",
        "00593b0184",
        "001203726f636b7364622e70726f70657274696573d20130",
        "0000000001000000",
        "00d3f996ee",
        "01870220880145",
        "0000000000000000000000000000000000000000000000000000000000000000000003000000f7cff485b741e288",
    ],
    // An index of two levels. The blocks stand in falling order, and the top block before its first part, with four bytes of no
    // block between; the separators of the top block are greater than those of its parts, and have no kind that an entry has.
    // Version 4.
    &[
        "000a0061620707000000000000",
        "020801010100000000000033",
        "0000000001000000",
        "006a8d591c",
        "000b01616162020300000000000032",
        "0000000001000000",
        "00946419ee",
        "000a02616201010000000000000021",
        "0000000001000000",
        "0017671230",
        "000b01616161010900000000000031",
        "0308000005000000000000",
        "0000000001000000",
        "003b4b12f3",
        "000b036161620900000000000000b60128",
        "000a02ffff09010000000000004217",
        "0000000001000000",
        "00c18ddbd2",
        "deadbeef",
        "000b0261616100050000000000005e22",
        "000b0261616202030000000000002617",
        "0000000001000000",
        "00aae21f65",
        "002404726f636b7364622e626c6f636b2e62617365642e7461626c652e696e6465782e7479706502000000",
        "0000000001000000",
        "00396ffc04",
        "001203726f636b7364622e70726f70657274696573e30133",
        "0000000001000000",
        "009975a562",
        "019b0220850128",
        "0000000000000000000000000000000000000000000000000000000000000000000004000000f7cff485b741e288",
    ],
    // All of these: parts of two rows and of one, whose first has a restart at each row and whole handles; in the top block the
    // second handle is a difference. Version 2.
    &[
        "000b01616161010900000000000031",
        "0308000005000000000000",
        "0000000001000000",
        "003b4b12f3",
        "000b01616162020300000000000032",
        "0000000001000000",
        "00946419ee",
        "000a0061620707000000000000",
        "020801010100000000000033",
        "0000000001000000",
        "006a8d591c",
        "00036161610022",
        "0004616162002717",
        "000000000700000002000000",
        "0048442489",
        "00036162ff4321",
        "0000000001000000",
        "0009ec11b0",
        "000461616200691b",
        "010262ff17",
        "0000000001000000",
        "00d51e1900",
        "002404726f636b7364622e626c6f636b2e62617365642e7461626c652e696e6465782e7479706502000000",
        "001d01726f636b7364622e696e6465782e6b65792e69732e757365722e6b657901",
        "002401726f636b7364622e696e6465782e76616c75652e69732e64656c74612e656e636f64656401",
        "0000000001000000",
        "007b004061",
        "001203726f636b7364622e70726f70657274696573b7017c",
        "0000000001000000",
        "00e7e59a55",
        "01b802209d0115",
        "0000000000000000000000000000000000000000000000000000000000000000000002000000f7cff485b741e288",
    ],
];

/// Calls on that list, and their answers.
static ON_SHARING: [(&str, &str); 3] = [
    (
        "first\nnext\nnext\nnext\nnext\nnext\nnext\n",
        "616161 9 P 31\n616161 5 D -\n616162 3 M 32\n6162 7 S -\n6162 1 P 33\nnone\nnot-positioned\n",
    ),
    (
        "last\nprev\nget 616161 9\nget 616161 8\nget 616161 4\nget 6162 6\n",
        "6162 1 P 33\n6162 7 S -\n616161 9 P 31\n616161 5 D -\nnone\n6162 1 P 33\n",
    ),
    (
        "seek 616161 4\nseek 6162 7\nseek_for_prev 616161 20\nseek_for_prev 6162 6\nseek_for_prev 62 0\n",
        "616162 3 M 32\n6162 7 S -\nnone\n6162 7 S -\n6162 1 P 33\n",
    ),
];

#[test]
fn files_of_one_list(rt: HostRuntime) -> Result<(), Fail> {
    for pieces in FOREIGN {
        assert_all(rt.alloc(), pieces, &ON_SHARING)?;
    }
    Ok(())
}

/// The file of the line `61 1 P 78` without properties.
static BARE: [&str; 5] = [DATA, INDEX, METAINDEX, FRONT, TAIL];

/// Calls on that file, and their answers.
static ON_BARE: [(&str, &str); 1] = [(
    "get 61 1\nget 61 0\nfirst\nnext\n",
    "61 1 P 78\nnone\n61 1 P 78\nnone\n",
)];

/// The file of examples/seventeen.txt without properties.
static SEVENTEEN: [&str; 30] = [
    "000a016b01010100000000000076",
    "01090102010200000000000076",
    "01090103010300000000000076",
    "01090104010400000000000076",
    "01090105010500000000000076",
    "01090106010600000000000076",
    "01090107010700000000000076",
    "01090108010800000000000076",
    "01090109010900000000000076",
    "0109010a010a00000000000076",
    "0109010b010b00000000000076",
    "0109010c010c00000000000076",
    "0109010d010d00000000000076",
    "0109010e010e00000000000076",
    "0109010f010f00000000000076",
    "01090110011000000000000076",
    "000a016b11011100000000000076",
    "00000000",
    "d1000000",
    "02000000",
    "0062d34f27",
    "000a036b11011100000000000000eb01",
    "0000000001000000",
    "00b0ce6cfc",
    "0000000001000000",
    "00c0f2a1b0",
    "018d0208f00118",
    "0000000000000000000000000000000000",
    "0000000000000000000000000000000000",
    "02000000f7cff485b741e288",
];

/// Calls on the list of examples/seventeen.txt, and their answers.
static ON_SEVENTEEN: [(&str, &str); 6] = [
    // Both ends, and what comes behind them.
    (
        "first\nprev\nprev\nlast\nprev\nlast\nnext\nnext\n",
        "6b01 1 P 76\nnone\nnot-positioned\n6b11 17 P 76\n6b10 16 P 76\n6b11 17 P 76\nnone\nnot-positioned\n",
    ),
    // Over the second restart, which is at the last row.
    (
        "seek 6b10 16\nnext\nprev\n",
        "6b10 16 P 76\n6b11 17 P 76\n6b10 16 P 76\n",
    ),
    // A snapshot before the entry of a key.
    (
        "seek 6b10 15\nseek_for_prev 6b11 18\nseek_for_prev 6b11 17\nseek_for_prev 6b11 3\n",
        "6b11 17 P 76\n6b10 16 P 76\n6b11 17 P 76\n6b11 17 P 76\n",
    ),
    // Targets before and after all.
    (
        "seek - 0\nseek_for_prev - 0\nprev\nseek ff 0\nnext\nseek_for_prev ff 0\n",
        "6b01 1 P 76\nnone\nnot-positioned\nnone\nnot-positioned\n6b11 17 P 76\n",
    ),
    // Get, at a snapshot and after it; of the last sequence number; of a key that begins others.
    (
        "get 6b11 17\nget 6b11 16\nget 6b10 72057594037927935\nget 6b 9\n",
        "6b11 17 P 76\nnone\n6b10 16 P 76\nnone\n",
    ),
    // Get leaves the position.
    (
        "get 6b01 1\nnext\nseek 6b05 5\nget 6b01 1\nget 6b01 0\nnext\n",
        "6b01 1 P 76\nnot-positioned\n6b05 5 P 76\n6b01 1 P 76\nnone\n6b06 6 P 76\n",
    ),
];

#[test]
fn files_without_properties(rt: HostRuntime) -> Result<(), Fail> {
    assert_all(rt.alloc(), &BARE, &ON_BARE)?;
    assert_all(rt.alloc(), &SEVENTEEN, &ON_SEVENTEEN)
}
