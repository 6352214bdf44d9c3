//! How a run of the program ends.
/// How a run of the program ends. A number stands for each, from 0 on in this order.
#[derive(Clone, Copy, Debug, PartialEq, Eq)]
pub enum Status {
    /// The command was carried out.
    Done,
    /// The words are no command.
    Usage,
    /// The input is refused.
    Input,
    /// A file is damaged.
    File,
    /// A cuckoo table has tried all its hash functions.
    Exhausted,
    /// The folder, the input or the output failed.
    Device,
    /// Memory ran out.
    Memory,
}
