//! Laws: what is put as a stored block stands for it, what is read at a handle is what is stored there, and a change of
//! one file is a change of that file alone.
ghost use Rattle.std.specs.Prelude.{◌≡◌, ℕ, ◌+◌, ◌^◌, ◌≤◌, List, ◌++◌, length, Option, Some, Ok, Err};
ghost use Rattle.std.specs.Option.{option_map};
ghost use Rattle.sst_num.specs.declared.block_handle.Handle.{Handle};
ghost use Rattle.sst_device.specs.Folder.{Files, file_of, put_file, edit_file};
ghost use Rattle.sst_device.specs.Framed.{Framed, Bare, frame_of};
ghost use Rattle.sst_device.specs.FrameReading.{frame_read};
ghost use Rattle.sst_device.specs.FrameFaults.{IsFrameFault};
ghost use Rattle.sst_device.specs.declared.frame.FrameFault.{FrameFault};

/// A law: a stored block that is put anywhere into a file is what the handle of its place stands for.
pub fn frame_is_framed()
    ensures { (front block rest : List ℕ) (end : ℕ) → length block ≤ 2 ^ 29 → length front + length block + 5 ≤ end
        → Framed (front ++ (frame_of block ++ rest)) end (record { offset = length front; size = length block }) block }
{}

/// What is read at a block handle is exactly the block that is stored there.
///
/// `end` is the file's length without its footer, but this holds of any number. `complete`: a block that is stored at
/// the handle is read. `sound`: what is read is stored there.
/// RocksDB: `BlockFetcher::ReadBlockContents` in table/block_fetcher.cc.
pub fn a_stored_block_is_read()
    ensures complete { (file : List ℕ) (end : ℕ) (h : Handle) (block : List ℕ) → Framed file end h block
        → frame_read file end h ≡ Ok block }
    ensures sound { (file : List ℕ) (end : ℕ) (h : Handle) (block : List ℕ) → frame_read file end h ≡ Ok block
        → Framed file end h block }
{}

/// The fault that is read at a block handle is exactly the first thing that is wrong there.
///
/// In this order: the block or its trailer passes the end, the block is too large, its checksum is another, it is
/// compressed. `complete`: what is first wrong is read. `sound`: the fault that is read is first wrong.
/// RocksDB: `BlockFetcher::ReadBlockContents` in table/block_fetcher.cc.
pub fn a_frame_fault_is_the_first()
    ensures complete { (file : List ℕ) (end : ℕ) (h : Handle) (fault : FrameFault) → IsFrameFault file end h fault
        → frame_read file end h ≡ Err fault }
    ensures sound { (file : List ℕ) (end : ℕ) (h : Handle) (fault : FrameFault) → frame_read file end h ≡ Err fault
        → IsFrameFault file end h fault }
{}

/// A block without a trailer that is put anywhere into a file is what the handle of its place stands for.
///
/// `stands`: it stands there, where it ends before the footer. `one`: a handle stands for one such block at most.
/// `limits`: the block ends before the footer and has at most 2^29 bytes. No call reads such a block yet.
/// RocksDB: `WriteBlock` in table/plain/plain_table_builder.cc.
pub fn a_block_without_a_trailer_is_bare()
    ensures stands { (front block rest : List ℕ) (end : ℕ) → length block ≤ 2 ^ 29 → length front + length block ≤ end
        → Bare (front ++ (block ++ rest)) end (record { offset = length front; size = length block }) block }
    ensures one { (file : List ℕ) (end : ℕ) (h : Handle) (a b : List ℕ) → Bare file end h a → Bare file end h b → a ≡ b }
    ensures limits { (file : List ℕ) (end : ℕ) (h : Handle) (block : List ℕ) → Bare file end h block
        → (h.offset + h.size ≤ end) × (h.size ≤ 2 ^ 29) }
{}

/// What is done to one file of a folder is done to it alone.
///
/// `put`, `edit`: the named file has the new bytes. `put_no_other`, `edit_no_other`: each other file is as it was.
pub fn one_file_changes()
    ensures put { (files : Files) (name bytes : List ℕ) → file_of (put_file (Some files) name bytes) name ≡ Some bytes }
    ensures put_no_other { (held : Option Files) (name other bytes : List ℕ) → (name ≡ other → ⊥)
        → file_of (put_file held name bytes) other ≡ file_of held other }
    ensures edit { (held : Option Files) (name : List ℕ) (change : List ℕ → List ℕ)
        → file_of (edit_file held name change) name ≡ option_map change (file_of held name) }
    ensures edit_no_other { (held : Option Files) (name other : List ℕ) (change : List ℕ → List ℕ) → (name ≡ other → ⊥)
        → file_of (edit_file held name change) other ≡ file_of held other }
{}
