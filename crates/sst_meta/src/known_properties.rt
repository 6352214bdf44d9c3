//! The properties that a reader knows, and what may be wrong with their values.
ghost use Rattle.std.specs.Prelude.{◌≡◌};
ghost use Rattle.std.specs.Option.{option_map};
ghost use Rattle.sst_meta.specs.LoadReading as reading;

use crate::meta_fault::MetaFault;
use crate::name::Name;
use crate::names::{BYTEWISE_COMPARATOR, COMPARATOR};
use crate::property_values::{fixed32_in, fixed64_in, varint_in};
use crate::props::Props;

/// The index types below this one are read: binary search, hash search, two levels.
///
/// RocksDB: `BlockBasedTableOptions::IndexType` in include/rocksdb/table.h.
const INDEX_TYPE_END: u32 = 3;

/// The version of a file that was made outside a database, without and with a global sequence number.
///
/// RocksDB: `ExternalSstFilePropertyNames::kVersion` in table/sst_file_writer_collectors.h.
const UNMARKED: u32 = 1;

const MARKED: u32 = 2;

/// The first number past the sequence numbers. RocksDB: `kMaxSequenceNumber` in db/dbformat.h.
const SEQUENCE_END: u64 = 1 << 56;

/// What is wrong with the order of user keys.
fn comparator_fault(value: Option<&[u8]>) -> Option<MetaFault>
    ensures { result ≡ reading.comparator_fault (option_map (λ v. v.now) value.entry) }
{
    match value {
        None => None,
        Some(value) => {
            if value == BYTEWISE_COMPARATOR {
                None
            } else {
                Some(MetaFault::Comparator)
            }
        }
    }
}

/// What is wrong with the type of the index.
fn index_type_fault(value: Option<&[u8]>) -> Option<MetaFault>
    ensures { result ≡ reading.index_type_fault (option_map (λ v. v.now) value.entry) }
{
    match value {
        None => None,
        Some(value) => match fixed32_in(value) {
            None => Some(MetaFault::BadProperty(Name::IndexType)),
            Some(kind) => {
                if kind >= INDEX_TYPE_END {
                    Some(MetaFault::IndexType(kind))
                } else {
                    None
                }
            }
        },
    }
}

/// The value is this number of four bytes.
fn is_number(value: Option<&[u8]>, number: u32) -> bool
    ensures { result ≡ reading.is_valued number (option_map (λ v. v.now) value.entry) }
{
    match value {
        None => false,
        Some(value) => match fixed32_in(value) {
            None => false,
            Some(found) => found == number,
        },
    }
}

/// What is wrong with the global sequence number, which a marked file has.
fn global_fault(external: Option<&[u8]>, global: Option<&[u8]>) -> Option<MetaFault>
    ensures { result ≡ reading.global_fault (option_map (λ v. v.now) external.entry) (option_map (λ v. v.now) global.entry) }
{
    if !is_number(external, MARKED) {
        return None;
    }
    match global {
        None => Some(MetaFault::MissingProperty(Name::GlobalSequence)),
        Some(value) => match fixed64_in(value) {
            None => Some(MetaFault::BadProperty(Name::GlobalSequence)),
            Some(sequence) => {
                if sequence < SEQUENCE_END {
                    None
                } else {
                    Some(MetaFault::BadProperty(Name::GlobalSequence))
                }
            }
        },
    }
}

/// What is wrong with the version of a file that was made outside a database.
fn external_fault(value: Option<&[u8]>) -> Option<MetaFault>
    ensures { result ≡ reading.external_fault (option_map (λ v. v.now) value.entry) }
{
    if value.is_none() {
        return None;
    }
    if is_number(value, UNMARKED) {
        return None;
    }
    if is_number(value, MARKED) {
        return None;
    }
    Some(MetaFault::BadProperty(Name::ExternalVersion))
}

/// What is wrong with a flag of the index.
fn flag_fault(name: Name, value: Option<&[u8]>) -> Option<MetaFault>
    ensures { result ≡ reading.flag_fault name (option_map (λ v. v.now) value.entry) }
{
    match value {
        None => None,
        Some(value) => match varint_in(value) {
            None => Some(MetaFault::BadProperty(name)),
            Some(_) => None,
        },
    }
}

/// A form that isn't read yet: the file is marked.
fn form_fault(props: &Props) -> Option<MetaFault>
    ensures { result ≡ reading.form_fault props.now }
{
    if is_number(props.get(Name::ExternalVersion.as_slice()), MARKED) {
        return Some(MetaFault::NotYet);
    }
    None
}

/// One fault, or else another.
fn or_fault(fault: Option<MetaFault>, next: Option<MetaFault>) -> Option<MetaFault>
    ensures { result ≡ reading.or_else fault next }
{
    match fault {
        None => next,
        Some(fault) => Some(fault),
    }
}

/// The first thing that is wrong with the properties that are looked at.
#[tactic(auto, unfolding(crate::specs::LoadReading::props_fault))]
pub fn fault_of(props: &Props) -> Option<MetaFault>
    ensures { result ≡ reading.props_fault props.now }
{
    let external = props.get(Name::ExternalVersion.as_slice());
    let global = props.get(Name::GlobalSequence.as_slice());
    let user_key = props.get(Name::IndexKeyIsUserKey.as_slice());
    let delta = props.get(Name::IndexValueIsDeltaEncoded.as_slice());
    let fault = comparator_fault(props.get(COMPARATOR));
    let fault = or_fault(
        fault,
        index_type_fault(props.get(Name::IndexType.as_slice())),
    );
    let fault = or_fault(fault, global_fault(external, global));
    let fault = or_fault(fault, external_fault(external));
    let fault = or_fault(fault, flag_fault(Name::IndexKeyIsUserKey, user_key));
    let fault = or_fault(fault, flag_fault(Name::IndexValueIsDeltaEncoded, delta));
    or_fault(fault, form_fault(props))
}
