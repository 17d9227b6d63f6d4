ghost use Rattle.std.specs.Prelude.{◌≡◌, ◌+◌, ◌<◌, ◌≤◌, ◌++◌, ◌∷◌, [], true, false, length, take, drop, suc, remove, insert, slice_index_or, vec_len, vec_capacity, Some, IfSome, IfNone, IfOk, OnOk, OnErr};
ghost use Rattle.std.specs.FinMap as map;
ghost use Rattle.std.specs.List.{filter_map, list_any};
ghost use Rattle.vfs_tree.specs.Name.{name_cmp};
ghost use Rattle.mem_dir.specs.Records.{is_below, joined, gives_some, with_records, first_at, IsRising, AreFilled, IsPlace};
ghost use Rattle.mem_dir.specs.Directory.{listed};

use crate::block::{Block, is_below};
use std::alloc::{AllocError, Global};
use vfs_tree::{Name, NameEntry, NameMap};

/// The place of the block in which the name stands, if any does.
pub fn block_of(blocks: &[Block], name: &Name) -> usize
    requires some { 0 < length blocks.now }
    requires filled { AreFilled blocks.now }
    ensures within { result < length blocks.now }
    ensures from { 0 < result → is_below name.now (first_at blocks.now result) ≡ false }
    ensures to { result + 1 < length blocks.now → is_below name.now (first_at blocks.now (result + 1)) ≡ true }
{
    let mut low = 0;
    let mut high = blocks.len();
    while 1 < high - low {
        let middle = low + (high - low) / 2;
        if is_below(name, blocks[middle].name(0)) {
            high = middle;
        } else {
            low = middle;
        }
    }
    low
}

/// A place in a list of blocks.
#[derive(Clone, Copy)]
pub struct Place {
    /// The place of the block.
    pub block: usize,
    /// The place in the block.
    pub at: usize,
}

/// The place where the name stands or would stand.
pub fn locate(blocks: &[Block], name: &Name) -> Place
    requires some { 0 < length blocks.now }
    requires filled { AreFilled blocks.now }
    ensures { IsPlace blocks.now result.block result.at name.now }
{
    let block = block_of(blocks, name);
    let at = blocks[block].place(name);
    Place { block, at }
}

/// What the name gives.
pub fn find(blocks: &[Block], name: &Name) -> Option<NameEntry>
    requires rising { IsRising (joined blocks.now) }
    requires filled { AreFilled blocks.now }
    ensures { result ≡ map.get (map.from_entries {R = name_cmp} (joined blocks.now)) name.now }
{
    if blocks.is_empty() {
        return None;
    }
    let place = locate(blocks, name);
    blocks[place.block].entry(place.at, name)
}

/// Makes the first block, of one record, without memory.
pub fn insert_first(blocks: &mut Vec<Block>, room: &mut Option<Block>, name: Name, entry: NameEntry)
    requires none { blocks.old.items ≡ [] }
    requires ready { room.old ≡ Some [] }
    requires list_room { vec_len blocks.old < vec_capacity blocks.old }
    ensures blocks { blocks.new.items ≡ ((name, entry) ∷ []) ∷ [] }
    ensures empty { IfSome room.new (λ block. block ≡ []) }
{
    let mut first = room.take().unwrap();
    first.insert(0, name, entry);
    blocks.push(first).unwrap();
}

/// Puts a record at a place of a block, without memory: for a full block an empty one is at hand, and the list of blocks
/// has room for it.
pub fn insert(
    blocks: &mut Vec<Block>,
    room: &mut Option<Block>,
    place: Place,
    name: Name,
    entry: NameEntry,
)
    requires within { place.block < vec_len blocks.old }
    requires at { place.at ≤ length (slice_index_or blocks.old.items place.block []) }
    requires ready { room.old ≡ Some [] }
    requires list_room { vec_len blocks.old < vec_capacity blocks.old }
    requires filled { AreFilled blocks.old.items }
    ensures filled { AreFilled blocks.new.items }
    ensures empty { IfSome room.new (λ block. block ≡ []) }
    ensures joined { joined blocks.new.items ≡ joined (take place.block blocks.old.items) ++ (insert (slice_index_or blocks.old.items place.block []) place.at (name, entry) ++ joined (drop (suc place.block) blocks.old.items)) }
{
    if blocks[place.block].is_full() {
        let mut upper = room.take().unwrap();
        blocks[place.block].insert_split(&mut upper, place.at, name, entry);
        blocks.insert(place.block + 1, upper).unwrap();
    } else {
        blocks[place.block].insert(place.at, name, entry);
    }
}

/// Takes the record at a place of a block away. A block without records goes.
pub fn remove(blocks: &mut Vec<Block>, place: Place)
    requires within { place.block < vec_len blocks.old }
    requires at { place.at < length (slice_index_or blocks.old.items place.block []) }
    requires filled { AreFilled blocks.old.items }
    ensures filled { AreFilled blocks.new.items }
    ensures joined { joined blocks.new.items ≡ joined (take place.block blocks.old.items) ++ (remove (slice_index_or blocks.old.items place.block []) place.at ++ joined (drop (suc place.block) blocks.old.items)) }
    ensures capacity { vec_capacity blocks.new ≡ vec_capacity blocks.old }
    ensures len { vec_len blocks.new ≤ vec_len blocks.old }
{
    if blocks[place.block].len() == 1 {
        blocks.remove(place.block);
    } else {
        blocks[place.block].remove(place.at);
    }
}

/// Takes the last record away and answers it. A block without records goes.
pub fn pop_last(blocks: &mut Vec<Block>) -> Option<(Name, NameEntry)>
    requires filled { AreFilled blocks.old.items }
    ensures filled { AreFilled blocks.new.items }
    ensures last { IfSome result (λ pair. joined blocks.old.items ≡ joined blocks.new.items ++ pair ∷ []) }
    ensures none { IfNone result (blocks.old.items ≡ []) }
    ensures unchanged { IfNone result (blocks.new.items ≡ []) }
    ensures capacity { vec_capacity blocks.new ≡ vec_capacity blocks.old }
    ensures len { vec_len blocks.new ≤ vec_len blocks.old }
{
    let last = blocks.len().checked_sub(1)?;
    let record = blocks[last].pop();
    if blocks[last].len() == 0 {
        blocks.pop();
    }
    record
}

/// Whether some name gives an inode.
pub fn gives_some(blocks: &[Block]) -> bool
    ensures { result ≡ list_any gives_some blocks.now }
{
    blocks.iter().any(|block| block.gives_some())
}

/// The names that give a whiteout, or those that give an inode. The only fault is want of memory.
pub fn list(alloc: Global, blocks: &[Block], white: bool) -> Result<Vec<Name>, AllocError>
    ensures { IfOk result (λ names. names.items ≡ filter_map (listed white) (joined blocks.now)) }
{
    let mut names = Vec::new(alloc);
    for block in blocks {
        block.list_into(alloc, white, &mut names)?;
    }
    Ok(names)
}

/// A copy of the records as a map. The only fault is want of memory.
pub fn copy(alloc: Global, blocks: &[Block]) -> Result<NameMap<NameEntry>, AllocError>
    ensures { IfOk result (λ names. names ≡ with_records map.empty (joined blocks.now)) }
{
    let mut names = NameMap::new(alloc);
    for block in blocks {
        block.copy_into(alloc, &mut names)?;
    }
    Ok(names)
}

/// Sees to it that an empty block is at hand. The only fault is want of memory.
pub fn fill_room(alloc: Global, room: &mut Option<Block>) -> Result<(), AllocError>
    requires { IfSome room.old (λ block. block ≡ []) }
    ensures ok { OnOk result (room.new ≡ Some []) }
    ensures err { OnErr result (room.new ≡ room.old) }
{
    if room.is_none() {
        *room = Some(Block::new(alloc)?);
    }
    Ok(())
}
