//! Tests of the footers of files, in pieces of hex digits.
//!
//! RocksDB: `Footer::DecodeFrom` and `FooterBuilder::Build` in table/format.cc.
ghost use Rattle.std.specs.Prelude.{◌≡◌};
ghost use Rattle.sst_meta.specs.Footer.{IsWritable};

use sst_key::Format;
use sst_meta::{Footer, MetaFault, format_of, put_footer, read_footer};
use sst_num::Handle;
use std::alloc::Global;
use std::process::Abort;
use std::test::Fail;

/// The handles of the metaindex, of 8 bytes at 50, and of the index, of 30 at 63.
const HANDLES: &str = "32083f1e";

/// The zeros behind them.
const ZEROS: &str = "000000000000000000000000000000000000000000000000000000000000000000000000";

/// The magic numbers: of block-based tables,
const BLOCK: &str = "f7cff485b741e288";
/// of those of version 0,
const LEGACY_BLOCK: &str = "57fb808b247547db";
/// of plain tables,
const PLAIN: &str = "6495bf6396224282";
/// of plain tables with a legacy footer,
const LEGACY_PLAIN: &str = "b8138f7aeb18344f";
/// and of cuckoo tables.
const CUCKOO: &str = "7378f1c5d0896792";

/// What such a footer says: the format, whether it is a legacy one, the version and the type of checksum.
#[derive(Clone, Copy)]
struct Said {
    format: Format,
    legacy: bool,
    version: u32,
    checksum: u8,
}

/// The footer that says so, with the handles above.
fn footer_of(said: Said) -> Footer
    ensures format { result.format ≡ said.format }
    ensures legacy { result.legacy ≡ said.legacy }
    ensures version { result.version ≡ said.version }
    ensures checksum { result.checksum ≡ said.checksum }
{
    Footer {
        format: said.format,
        legacy: said.legacy,
        version: said.version,
        checksum: said.checksum,
        meta: Handle {
            offset: 50,
            size: 8,
        },
        index: Handle {
            offset: 63,
            size: 30,
        },
    }
}

/// The last bytes of files, the format that they tell, and what their footer says.
static READ: [(&[&str], Option<Format>, Result<Said, MetaFault>); 14] = [
    (
        &["01", HANDLES, ZEROS, "02000000", BLOCK],
        Some(Format::Block),
        Ok(Said {
            format: Format::Block,
            legacy: false,
            version: 2,
            checksum: 1,
        }),
    ),
    // A plain and a cuckoo table of version 1, of no checksums.
    (
        &["00", HANDLES, ZEROS, "01000000", PLAIN],
        Some(Format::Plain),
        Ok(Said {
            format: Format::Plain,
            legacy: false,
            version: 1,
            checksum: 0,
        }),
    ),
    (
        &["00", HANDLES, ZEROS, "01000000", CUCKOO],
        Some(Format::Cuckoo),
        Ok(Said {
            format: Format::Cuckoo,
            legacy: false,
            version: 1,
            checksum: 0,
        }),
    ),
    // A legacy footer of 48 bytes; alone, and with five bytes of the file before it.
    (
        &[HANDLES, ZEROS, LEGACY_PLAIN],
        Some(Format::Plain),
        Ok(Said {
            format: Format::Plain,
            legacy: true,
            version: 0,
            checksum: 0,
        }),
    ),
    (
        &["ffffffffff", HANDLES, ZEROS, LEGACY_PLAIN],
        Some(Format::Plain),
        Ok(Said {
            format: Format::Plain,
            legacy: true,
            version: 0,
            checksum: 0,
        }),
    ),
    // Of plain and cuckoo tables any version and any checksum type are read, whatever the padding.
    (
        &[
            "05",
            HANDLES,
            "ffffffffffffffffffffffffffffffffffffffffffffffffffffffffffffffffffffffff",
            "07000000",
            PLAIN,
        ],
        Some(Format::Plain),
        Ok(Said {
            format: Format::Plain,
            legacy: false,
            version: 7,
            checksum: 5,
        }),
    ),
    // Version 0 of a block-based file isn't read.
    (
        &[HANDLES, ZEROS, LEGACY_BLOCK],
        Some(Format::Block),
        Err(MetaFault::Version(0)),
    ),
    // No byte, seven bytes, and eight that are the number of a cuckoo table without its footer.
    (&[], None, Err(MetaFault::NotTable)),
    (&["f7cff485b741e2"], None, Err(MetaFault::NotTable)),
    (&[CUCKOO], None, Err(MetaFault::NotTable)),
    // The version is looked at before the checksum type, and this before the handles.
    (
        &["02", "80003200", ZEROS, "05000000", BLOCK],
        Some(Format::Block),
        Err(MetaFault::Version(5)),
    ),
    (
        &["04", HANDLES, ZEROS, "01000000", BLOCK],
        Some(Format::Block),
        Err(MetaFault::Version(1)),
    ),
    (
        &["02", "80003200", ZEROS, "02000000", BLOCK],
        Some(Format::Block),
        Err(MetaFault::ChecksumType(2)),
    ),
    // A handle begins with a needless spelling of 0.
    (
        &["01", "80000000", ZEROS, "02000000", BLOCK],
        Some(Format::Block),
        Err(MetaFault::BadFooter),
    ),
];

/// The bytes that hex digits spell.
fn bytes_of(alloc: Global, pieces: &[&str]) -> Result<Vec<u8>, Fail> {
    let mut bytes = Vec::new(alloc);
    for piece in pieces {
        let piece = hex::decode(alloc, piece.as_bytes())?;
        bytes.extend_from_slice(&piece)?;
    }
    Ok(bytes)
}

#[test]
fn footers_that_are_read(rt: HostRuntime) -> Result<(), Fail> {
    for (pieces, format, said) in READ {
        let bytes = bytes_of(rt.alloc(), pieces)?;
        let wanted = match said {
            Ok(said) => Ok(footer_of(said)),
            Err(fault) => Err(fault),
        };
        assert_eq!(rt; read_footer(bytes.as_slice()), wanted, "of {pieces:?}");
        assert_eq!(rt; format_of(bytes.as_slice()), format, "of {pieces:?}");
    }
    Ok(())
}

/// Asserts that the footer that says so is put as these bytes.
fn assert_put(rt: &impl Abort, alloc: Global, said: Said, pieces: &[&str]) -> Result<(), Fail>
    requires { IsWritable said.format said.legacy said.version said.checksum }
{
    let mut out = Vec::new(alloc);
    put_footer(&mut out, &footer_of(said))?;
    let bytes = bytes_of(alloc, pieces)?;
    assert_eq!(rt; out.as_slice(), bytes.as_slice());
    Ok(())
}

// That of a block-based file of version 0 is put, and not read.
#[test]
fn footers_that_are_put(rt: HostRuntime) -> Result<(), Fail> {
    let said = Said {
        format: Format::Block,
        legacy: false,
        version: 2,
        checksum: 1,
    };
    assert_put(
        &rt,
        rt.alloc(),
        said,
        &["01", HANDLES, ZEROS, "02000000", BLOCK],
    )?;
    let said = Said {
        format: Format::Plain,
        legacy: false,
        version: 1,
        checksum: 0,
    };
    assert_put(
        &rt,
        rt.alloc(),
        said,
        &["00", HANDLES, ZEROS, "01000000", PLAIN],
    )?;
    let said = Said {
        format: Format::Cuckoo,
        legacy: false,
        version: 1,
        checksum: 0,
    };
    assert_put(
        &rt,
        rt.alloc(),
        said,
        &["00", HANDLES, ZEROS, "01000000", CUCKOO],
    )?;
    let said = Said {
        format: Format::Plain,
        legacy: true,
        version: 0,
        checksum: 0,
    };
    assert_put(&rt, rt.alloc(), said, &[HANDLES, ZEROS, LEGACY_PLAIN])?;
    let said = Said {
        format: Format::Block,
        legacy: true,
        version: 0,
        checksum: 1,
    };
    assert_put(&rt, rt.alloc(), said, &[HANDLES, ZEROS, LEGACY_BLOCK])?;
    Ok(())
}
