//! Lists written as one block, byte for byte: `sst write block one.sst` with entry lines on its input.
//!
//! The bytes of the files are those of an independent program, in hex digits; their places and sizes are worked by
//! hand in the comments beside them.
//!
//! RocksDB: `BlockBuilder` in table/block_based/block_builder.cc (a restart at each 16 rows), `InternalKeyComparator`
//! in db/dbformat.h, `FooterBuilder::Build` in table/format.cc.
use crate::written_file::{Behind, PLAIN, put_behind};
use sst_cli::Status;
use sst_tests_shared::small_file::ONE_RESTART;
use sst_tests_shared::worked_run::{
    NAME, Ran, holds, other_is_as_it_was, printed, put_hex, text_of, written, written_with,
};
use std::alloc::Global;
use std::process::Abort;
use std::test::Fail;

/// Lines, and the file that is written for them.
pub(crate) struct Written {
    /// The options.
    pub(crate) options: &'static [&'static str],
    /// The lines, in pieces.
    pub(crate) lines: &'static [&'static str],
    /// What is printed.
    pub(crate) text: &'static str,
    /// The length of the file.
    pub(crate) length: usize,
    /// The data blocks with their trailers, in hex digits.
    pub(crate) data: &'static [&'static str],
    /// The blocks of the index with theirs.
    pub(crate) index: &'static [&'static str],
    /// What stands after it.
    pub(crate) behind: Behind,
}

/// Lists of one entry, of none, and of three versions of one key.
static FILES: [Written; 5] = [
    // The index block stands at 26, and ends with its trailer at 53; the properties of 254 bytes at 53, the metaindex of 32 at
    // 312, and the footer at 349.
    Written {
        options: &[],
        lines: &["61 1 P 78\n"],
        text: "wrote 1\n",
        length: 402,
        data: &["00090161010100000000000078", ONE_RESTART, "0084dd8874"],
        index: &["0009026101010000000000000015", ONE_RESTART, "00364925bf"],
        behind: Behind {
            form: PLAIN,
            data_size: "1a",
            index_size: "1b",
            blocks: "01",
            entries: "01",
            key_size: "09",
            value_size: "01",
            checksum: "b96d74e7",
            handle: "35fe01",
            metaindex_checksum: "afb00bd0",
            footer: "01b802201a16",
        },
    },
    // The empty key, and digits of either case. The index has 21 bytes, and each block after it is a byte nearer.
    Written {
        options: &[],
        lines: &["- 1 P AbCd\n"],
        text: "wrote 1\n",
        length: 401,
        data: &["0008020101000000000000abcd", ONE_RESTART, "002c2919da"],
        index: &["00080201010000000000000015", ONE_RESTART, "00aba956c1"],
        behind: Behind {
            form: PLAIN,
            data_size: "1a",
            index_size: "1a",
            blocks: "01",
            entries: "01",
            key_size: "08",
            value_size: "02",
            checksum: "45baa24d",
            handle: "34fe01",
            metaindex_checksum: "0c926b28",
            footer: "01b702201a15",
        },
    },
    // The last sequence number. The properties don't tell it.
    Written {
        options: &[],
        lines: &["61 72057594037927935 P 78\n"],
        text: "wrote 1\n",
        length: 402,
        data: &["0009016101ffffffffffffff78", ONE_RESTART, "00e63dcbad"],
        index: &["0009026101ffffffffffffff0015", ONE_RESTART, "0003416abd"],
        behind: Behind {
            form: PLAIN,
            data_size: "1a",
            index_size: "1b",
            blocks: "01",
            entries: "01",
            key_size: "09",
            value_size: "01",
            checksum: "b96d74e7",
            handle: "35fe01",
            metaindex_checksum: "afb00bd0",
            footer: "01b802201a16",
        },
    },
    // The empty list: the index, at 0, has no row. The properties of 254 bytes at 13, and the metaindex of 32 at 272.
    Written {
        options: &[],
        lines: &[],
        text: "wrote 0\n",
        length: 362,
        data: &[],
        index: &["0000000001000000", "00c0f2a1b0"],
        behind: Behind {
            form: PLAIN,
            data_size: "00",
            index_size: "0d",
            blocks: "00",
            entries: "00",
            key_size: "00",
            value_size: "00",
            checksum: "862548ae",
            handle: "0dfe01",
            metaindex_checksum: "be7a84f5",
            footer: "019002200008",
        },
    },
    // Three versions of the key k: a value, a deletion and a merge operand. They share the user key alone, since the kind comes
    // next. The index is at 50: one row, with the last key and the handle of the data block (0, 45). The properties of 254
    // bytes at 77, and the metaindex of 32 at 336.
    Written {
        options: &[],
        lines: &["6b 9 P 31\n6b 5 D 32\n6b 2 M 33\n"],
        text: "wrote 3\n",
        length: 426,
        data: &[
            "0009016b010900000000000031",
            "010801000500000000000032",
            "010801020200000000000033",
            "0000000001000000",
            "00d1fab33f",
        ],
        index: &["0009026b0202000000000000002d0000000001000000", "002ad41c73"],
        behind: Behind {
            form: PLAIN,
            data_size: "32",
            index_size: "1b",
            blocks: "01",
            entries: "03",
            key_size: "1b",
            value_size: "03",
            checksum: "22cb0ae0",
            handle: "4dfe01",
            metaindex_checksum: "80311c36",
            footer: "01d002203216",
        },
    },
];

/// The file of a row.
fn file_of(alloc: Global, row: &Written) -> Result<Vec<u8>, Fail> {
    let mut file = Vec::new(alloc);
    put_hex(alloc, &mut file, row.data)?;
    put_hex(alloc, &mut file, row.index)?;
    put_behind(alloc, &mut file, &row.behind)?;
    Ok(file)
}

/// The file that is written for the line `61 1 P 78`.
pub(crate) fn written_file(alloc: Global) -> Result<Vec<u8>, Fail> {
    file_of(alloc, &FILES[0])
}

/// Asserts that the command wrote this file with these options, and printed this.
pub(crate) fn assert_wrote(rt: &impl Abort, ran: &Ran, file: &[u8], text: &str, options: &[&str]) {
    assert_eq!(rt; ran.status, Status::Done, "where {text} with {options:?}");
    assert!(rt; printed(ran, text), "where {text} with {options:?}");
    assert!(rt; holds(ran, NAME, file), "where {text} with {options:?}");
    assert!(rt; other_is_as_it_was(ran), "where {text} with {options:?}");
}

/// Asserts that the file of each row is written for its lines.
pub(crate) fn assert_files(rt: &impl Abort, alloc: Global, rows: &[Written]) -> Result<(), Fail> {
    for row in rows {
        let file = file_of(alloc, row)?;
        let options = row.options;
        assert_eq!(rt; file.len(), row.length, "with {options:?}");
        let lines = text_of(alloc, row.lines)?;
        let ran = written_with(alloc, options, lines.as_bytes())?;
        assert_wrote(rt, &ran, &file, row.text, options);
    }
    Ok(())
}

#[test]
fn worked_files(rt: HostRuntime) -> Result<(), Fail> {
    assert_files(&rt, rt.alloc(), &FILES)
}

/// The rows of a list with the keys 6b00, 6b01 and so on. Each shares `k` with the one before it, but for the first, the
/// 17th and the 33rd, which stand at restart points.
static ROWS: [&str; 33] = [
    "000a016b00010100000000000040",
    "01090101010100000000000041",
    "01090102010100000000000042",
    "01090103010100000000000043",
    "01090104010100000000000044",
    "01090105010100000000000045",
    "01090106010100000000000046",
    "01090107010100000000000047",
    "01090108010100000000000048",
    "01090109010100000000000049",
    "0109010a01010000000000004a",
    "0109010b01010000000000004b",
    "0109010c01010000000000004c",
    "0109010d01010000000000004d",
    "0109010e01010000000000004e",
    "0109010f01010000000000004f",
    "000a016b10010100000000000050",
    "01090111010100000000000051",
    "01090112010100000000000052",
    "01090113010100000000000053",
    "01090114010100000000000054",
    "01090115010100000000000055",
    "01090116010100000000000056",
    "01090117010100000000000057",
    "01090118010100000000000058",
    "01090119010100000000000059",
    "0109011a01010000000000005a",
    "0109011b01010000000000005b",
    "0109011c01010000000000005c",
    "0109011d01010000000000005d",
    "0109011e01010000000000005e",
    "0109011f01010000000000005f",
    "000a016b20010100000000000060",
];

/// How many rows there are, what follows them up to the end of the index, and what stands after that.
static RESTARTS: [(u8, &[&str], Behind, &str); 2] = [
    // Restart points at 0 and 209: the first row has 14 bytes, and the 15 after it have 13. The index block is at 240: one row,
    // with the user key 6c and the greatest tag, and the handle of the data block (0, 235). The properties of 256 bytes at 268,
    // since two numbers have two bytes, and the metaindex of 33 at 529.
    (
        17,
        &[
            "00000000d100000002000000",
            "00f9cbf476",
            "0009036cffffffffffffffff00eb010000000001000000",
            "00365295f7",
        ],
        Behind {
            form: PLAIN,
            data_size: "f001",
            index_size: "1c",
            blocks: "01",
            entries: "11",
            key_size: "aa01",
            value_size: "11",
            checksum: "c019ce9f",
            handle: "8c028002",
            metaindex_checksum: "324df622",
            footer: "01910421f00117",
        },
        "wrote 17\n",
    ),
    // Restart points at 0, 209 and 418, which is twice 209. The index block is at 453, and the handle of the data block
    // is (0, 448). The properties of 256 bytes at 481, and the metaindex of 33 at 742.
    (
        33,
        &[
            "00000000d1000000a201000003000000",
            "001093e206",
            "0009036cffffffffffffffff00c0030000000001000000",
            "00f501bf57",
        ],
        Behind {
            form: PLAIN,
            data_size: "c503",
            index_size: "1c",
            blocks: "01",
            entries: "21",
            key_size: "ca02",
            value_size: "21",
            checksum: "674fe93b",
            handle: "e1038002",
            metaindex_checksum: "6be0da11",
            footer: "01e60521c50317",
        },
        "wrote 33\n",
    ),
];

/// The lines of a list with so many of the keys 6b00, 6b01 and so on, and the values 40, 41 and so on.
pub(crate) fn numbered_lines(alloc: Global, count: u8) -> Result<Vec<u8>, Fail> {
    let mut text = Vec::new(alloc);
    for number in 0..count {
        let value = number | 0x40;
        let line = format!(in alloc; "6b{number:02x} 1 P {value:02x}\n")?;
        text.extend_from_slice(line.as_bytes())?;
    }
    Ok(text)
}

#[test]
fn second_and_third_restarts(rt: HostRuntime) -> Result<(), Fail> {
    for (count, end, behind, text) in &RESTARTS {
        let ran = written(rt.alloc(), &numbered_lines(rt.alloc(), *count)?)?;
        let mut file = Vec::new(rt.alloc());
        if let Some(rows) = ROWS.get(..usize::from(*count)) {
            put_hex(rt.alloc(), &mut file, rows)?;
        }
        put_hex(rt.alloc(), &mut file, end)?;
        put_behind(rt.alloc(), &mut file, behind)?;
        assert_wrote(&rt, &ran, &file, text, &[]);
    }
    Ok(())
}

/// The number of the kind in the file that was written, where there is one: the low byte of the first row's tag,
/// after the three lengths and a key of one byte.
fn kind_of_first_row(ran: &Ran) -> Option<u8> {
    let file = ran.folder.file(NAME)?;
    file.get(4).copied()
}

// RocksDB: `ValueType` in db/dbformat.h.
#[test]
fn the_kinds(rt: HostRuntime) -> Result<(), Fail> {
    for (letter, number) in [('D', 0), ('P', 1), ('M', 2), ('S', 7)] {
        let line = format!(in rt.alloc(); "61 1 {letter} 78\n")?;
        let ran = written(rt.alloc(), line.as_bytes())?;
        assert_eq!(rt; ran.status, Status::Done, "of {letter}");
        assert_eq!(rt; kind_of_first_row(&ran), Some(number), "of {letter}");
    }
    Ok(())
}

#[test]
fn lists_that_fit(rt: HostRuntime) -> Result<(), Fail> {
    for (input, text) in [
        // Digits of either case, and the empty key and value.
        ("- 1 P -\n6b 1 P aB\n6C 1 P Ab\n", "wrote 3\n"),
        // The first and the last sequence number; of one key the greater comes first.
        ("61 72057594037927935 P 78\n61 0 P 78\n", "wrote 2\n"),
        // Of one key and sequence number the kind with the greater number comes first.
        ("61 1 S 78\n61 1 M 78\n61 1 P 78\n61 1 D 78\n", "wrote 4\n"),
        // A key comes before those that it begins.
        ("61 1 P 78\n6100 2 P 78\n62 1 P 78\n", "wrote 3\n"),
        // Bytes are compared without sign.
        ("7f 1 P 78\n80 1 P 78\n", "wrote 2\n"),
    ] {
        let ran = written(rt.alloc(), input.as_bytes())?;
        assert_eq!(rt; ran.status, Status::Done, "on {input}");
        assert!(rt; printed(&ran, text), "on {input}");
        assert!(rt; other_is_as_it_was(&ran), "on {input}");
    }
    Ok(())
}
