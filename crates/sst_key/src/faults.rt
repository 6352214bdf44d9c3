//! Why a writer refuses an entry.

/// Why a writer refuses an entry. The causes are checked in this order. The last three are not given yet.
#[derive(Clone, Copy, Debug, PartialEq, Eq)]
pub enum WriteFault {
    /// The entry isn't after the entry before it.
    NotIncreasing,
    /// The user key has more than 65,536 bytes.
    KeyLong,
    /// The value has more than 16,777,216 bytes.
    ValueLong,
    /// The list would weigh more than 2^28: key, value and 64 of each entry, summed.
    Heavy,
    /// In a file for ingestion: the sequence isn't 0, or the user key is that of the entry before.
    ExternalShape,
    /// The user key hasn't the fixed length of the table.
    KeySize,
    /// The user key is shorter than the prefix of the table.
    ShortKey,
}
