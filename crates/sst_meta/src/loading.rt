//! What a table file says of itself: its length, its footer, its metaindex and its properties.
ghost use Rattle.std.specs.Prelude.{◌≡◌, ◌≢◌, ℕ, ◌+◌, ◌-◌, ◌*◌, ◌≤◌, ◌^◌, ◌⊎◌, List, length, Option, Some, Err, IsTrue, IfOk};
ghost use Rattle.sst_block.specs.declared.row_form.RowForm.TheVariants.{Names};
ghost use Rattle.sst_device.specs.Folder.{file_of, misses};
ghost use Rattle.sst_device.specs.Outside.{OnlyReads};
ghost use Rattle.sst_device.specs.Drawn.{block_drawn};
ghost use Rattle.sst_device.specs.Stops.{Answers, stop_as};
ghost use Rattle.sst_meta.specs.Blocks.{block_at, rows_checked};
ghost use Rattle.sst_meta.specs.BlockFooter.{footer_start};
ghost use Rattle.sst_meta.specs.FooterReading.{last_bytes};
ghost use Rattle.sst_meta.specs.Drawn.{loaded_drawn, props_drawn};
ghost use Rattle.sst_meta.specs.LoadReading as reading;
ghost use Rattle.sst_meta.specs.LoadReading.{load_read, end_read, names_read, props_read, props_at, props_in};
ghost use Rattle.sst_meta.specs.declared.meta_fault.MetaFault.TheVariants as meta;

use crate::footer::{Footer, format_of, read_footer};
use crate::known_properties::fault_of;
use crate::meta_fault::MetaFault;
use crate::name::Name;
use crate::names::RANGE_DEL;
use crate::property_values::handle_in;
use crate::props::Props;
use sst_device::{DevStop, Folder, FrameFault, draw, draw_framed};
use sst_key::Format;
use sst_num::{Bytes, Handle, Refused, Stop};
use std::alloc::Global;

/// A file of so many bytes or more isn't read.
const FILE_LIMIT: u64 = 1 << 40;

/// The most bytes that a footer takes, and those of each block-based file that is read.
///
/// RocksDB: `Footer::kMaxEncodedLength` in table/format.h.
const FOOTER_LENGTH: u64 = crate::footer::FOOTER_LENGTH as u64;

/// What a table file says of itself.
///
/// RocksDB: `BlockBasedTable::Rep` in table/block_based/block_based_table_reader.h keeps the same.
#[derive(Debug, Drop)]
pub struct Loaded {
    /// The file's length.
    pub len: u64,
    /// The footer.
    pub footer: Footer,
    /// The rows of the metaindex: names, and handles of blocks.
    pub names: Props,
    /// The properties, if the metaindex leads to a block of them.
    pub props: Option<Props>,
}

impl Loaded {
    /// Where the footer begins, if the file is block-based.
    pub fn end(&self) -> u64
        ensures { result ≡ self.now.len - 53 }
    {
        self.len.saturating_sub(FOOTER_LENGTH)
    }
}

/// Loads what the named file says of itself, or answers the first thing that is wrong.
///
/// The faults come in this order: `FileLong`; `NotTable`; `NotYet` of a plain or a cuckoo table; `Version`;
/// `ChecksumType`; `BadFooter`; `Frame` and `Block` of the metaindex; `RangeTombstones`; `BadProperty` of
/// `rocksdb.properties`, `Frame` and `Block` of the properties block; `Comparator`; of the other names that are looked
/// at, in bytewise order, `BadProperty`, `IndexType` and `MissingProperty`; `NotYet` of a global sequence number.
/// RocksDB: `BlockBasedTable::Open` in table/block_based/block_based_table_reader.cc, and `ReadTableProperties` in
/// table/meta_blocks.cc.
#[tactic(auto, unfolding(crate::specs::LoadReading::load_read))]
pub fn load<F: Folder>(alloc: Global, files: &mut F, name: &str) -> Result<Loaded, Stop<MetaFault>>
    ensures told { (file : List ℕ) → file_of (F.held files.old) name.now ≡ Some file → Answers result (load_read file) }
    ensures folder { OnlyReads (result ≡ Err Stop.Device) (IsTrue (misses (F.held files.old) name.now 0))
        (F.held files.old) (F.held files.new) (F.faults files.old) (F.faults files.new) }
    ensures absent { IsTrue (misses (F.held files.old) name.now 0) → (result ≡ Err Stop.Device) ⊎ (result ≡ Err Stop.Memory) }
    ensures drew { IfOk result (λ loaded. F.drawn files.new ≤ F.drawn files.old + loaded_drawn loaded) }
    ensures drew_some { F.drawn files.new ≤ F.drawn files.old + 53 + 2 * (2 ^ 29 + 5) }
    ensures never_falls { F.drawn files.old ≤ F.drawn files.new }
{
    let len = files.size(name)?;
    if len >= FILE_LIMIT {
        return Err(Stop::Damage(MetaFault::FileLong));
    }
    let tail = draw_tail(alloc, files, name, len)?;
    match read_end(tail.as_slice()) {
        Err(fault) => Err(Stop::Damage(fault)),
        Ok(footer) => load_names(alloc, files, name, len, footer),
    }
}

/// The last 53 bytes of the named file, which has `len` bytes, or all of a shorter one.
fn draw_tail<F: Folder>(
    alloc: Global,
    files: &mut F,
    name: &str,
    len: u64,
) -> Result<Bytes, DevStop>
    ensures bytes { IfOk result (λ b. (file : List ℕ) → file_of (F.held files.old) name.now ≡ Some file → len ≡ length file
        → b ≡ last_bytes 53 file) }
    ensures folder { OnlyReads (result ≡ Err DevStop.Failed) (IsTrue (misses (F.held files.old) name.now len))
        (F.held files.old) (F.held files.new) (F.faults files.old) (F.faults files.new) }
    ensures drew_some { F.drawn files.new ≤ F.drawn files.old + 53 }
    ensures never_falls { F.drawn files.old ≤ F.drawn files.new }
{
    let count = len.min(FOOTER_LENGTH);
    draw(alloc, files, name, len - count, count as usize)
}

/// The footer of a file by its last 53 bytes or all of a shorter file. A plain or a cuckoo table isn't read yet.
#[tactic(auto, unfolding(crate::specs::LoadReading::end_read))]
fn read_end(tail: &[u8]) -> Result<Footer, MetaFault>
    ensures exact { result ≡ end_read tail.now }
{
    match format_of(tail) {
        None => read_footer(tail),
        Some(Format::Block) => read_footer(tail),
        Some(Format::Plain) => Err(MetaFault::NotYet),
        Some(Format::Cuckoo) => Err(MetaFault::NotYet),
    }
}

/// What a file of `len` bytes with this footer says of itself.
fn load_names<F: Folder>(
    alloc: Global,
    files: &mut F,
    name: &str,
    len: u64,
    footer: Footer,
) -> Result<Loaded, Stop<MetaFault>>
    ensures told { (file : List ℕ) → file_of (F.held files.old) name.now ≡ Some file → len ≡ length file
        → Answers result (names_read file (footer_start file) footer) }
    ensures folder { OnlyReads (result ≡ Err Stop.Device) (IsTrue (misses (F.held files.old) name.now len))
        (F.held files.old) (F.held files.new) (F.faults files.old) (F.faults files.new) }
    ensures drew { IfOk result (λ loaded. F.drawn files.new ≤ F.drawn files.old + block_drawn loaded.footer.meta + props_drawn loaded.names) }
    ensures drew_some { F.drawn files.new ≤ F.drawn files.old + 2 * (2 ^ 29 + 5) }
    ensures never_falls { F.drawn files.old ≤ F.drawn files.new }
{
    let end = len.saturating_sub(FOOTER_LENGTH);
    match draw_pairs(alloc, files, name, end, footer.meta) {
        Err(stop) => Err(stop),
        Ok(names) => match load_props(alloc, files, name, end, &names) {
            Err(stop) => Err(stop),
            Ok(props) => Ok(Loaded {
                len,
                footer,
                names,
                props,
            }),
        },
    }
}

/// The stop of a block that isn't framed.
fn frame_stop(stop: Stop<FrameFault>) -> Stop<MetaFault>
    ensures { result ≡ stop_as meta.Frame stop }
{
    match stop {
        Stop::Damage(fault) => Stop::Damage(MetaFault::Frame(fault)),
        Stop::Device => Stop::Device,
        Stop::Memory => Stop::Memory,
    }
}

/// The names and values of a block that stands at the handle.
fn pairs_in(alloc: Global, block: &[u8], handle: Handle) -> Result<Props, Stop<MetaFault>>
    requires { length block.now ≤ 2 ^ 29 }
    ensures told { Answers result (rows_checked (meta.Block handle) Names block.now) }
    ensures device { result ≢ Err Stop.Device }
{
    match Props::read(alloc, block) {
        Ok(pairs) => Ok(pairs),
        Err(Refused::Cause(fault)) => Err(Stop::Damage(MetaFault::Block(handle, fault))),
        Err(Refused::Memory) => Err(Stop::Memory),
    }
}

/// The names and values of the framed block at a handle. `end` is the file's length without its footer.
fn draw_pairs<F: Folder>(
    alloc: Global,
    files: &mut F,
    name: &str,
    end: u64,
    handle: Handle,
) -> Result<Props, Stop<MetaFault>>
    ensures told { (file : List ℕ) → file_of (F.held files.old) name.now ≡ Some file → end ≤ length file
        → Answers result (block_at meta.Frame (meta.Block handle) Names file end handle) }
    ensures folder { OnlyReads (result ≡ Err Stop.Device) (IsTrue (misses (F.held files.old) name.now end))
        (F.held files.old) (F.held files.new) (F.faults files.old) (F.faults files.new) }
    ensures drew_some { F.drawn files.new ≤ F.drawn files.old + block_drawn handle }
    ensures never_falls { F.drawn files.old ≤ F.drawn files.new }
{
    match draw_framed(alloc, files, name, end, handle) {
        Err(stop) => Err(frame_stop(stop)),
        Ok(block) => pairs_in(alloc, block.as_slice(), handle),
    }
}

/// The properties of a file whose metaindex has these rows, if it leads to them.
#[tactic(auto, unfolding(crate::specs::LoadReading::props_read))]
fn load_props<F: Folder>(
    alloc: Global,
    files: &mut F,
    name: &str,
    end: u64,
    names: &Props,
) -> Result<Option<Props>, Stop<MetaFault>>
    ensures told { (file : List ℕ) → file_of (F.held files.old) name.now ≡ Some file → end ≤ length file
        → Answers result (props_read file end names.now) }
    ensures folder { OnlyReads (result ≡ Err Stop.Device) (IsTrue (misses (F.held files.old) name.now end))
        (F.held files.old) (F.held files.new) (F.faults files.old) (F.faults files.new) }
    ensures drew_some { F.drawn files.new ≤ F.drawn files.old + props_drawn names.now }
    ensures never_falls { F.drawn files.old ≤ F.drawn files.new }
{
    if names.get(RANGE_DEL).is_some() {
        return Err(Stop::Damage(MetaFault::RangeTombstones));
    }
    match names.get(Name::Properties.as_slice()) {
        None => Ok(None),
        Some(value) => match handle_in(value) {
            None => Err(Stop::Damage(MetaFault::BadProperty(Name::Properties))),
            Some(handle) => draw_props(alloc, files, name, end, handle),
        },
    }
}

/// The properties in the framed block at a handle, if none that is looked at is wrong.
fn draw_props<F: Folder>(
    alloc: Global,
    files: &mut F,
    name: &str,
    end: u64,
    handle: Handle,
) -> Result<Option<Props>, Stop<MetaFault>>
    ensures told { (file : List ℕ) → file_of (F.held files.old) name.now ≡ Some file → end ≤ length file
        → Answers result (props_in file end (Some handle)) }
    ensures folder { OnlyReads (result ≡ Err Stop.Device) (IsTrue (misses (F.held files.old) name.now end))
        (F.held files.old) (F.held files.new) (F.faults files.old) (F.faults files.new) }
    ensures drew_some { F.drawn files.new ≤ F.drawn files.old + block_drawn handle }
    ensures never_falls { F.drawn files.old ≤ F.drawn files.new }
{
    match draw_pairs(alloc, files, name, end, handle) {
        Err(stop) => Err(stop),
        Ok(props) => match fault_of(&props) {
            Some(fault) => Err(Stop::Damage(fault)),
            None => Ok(Some(props)),
        },
    }
}
