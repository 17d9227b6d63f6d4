// The table of vnodes: its calls fill and empty slots, hold vnodes and let them go, doom them and find them.
ghost use Rattle.std.specs.Prelude.{◌≡◌, ◌≢◌, ◌<◌, ◌≤◌, ◌+◌, ◌*◌, ◌^◌, ◌==◌, ◌&&◌, ◌↔◌, ℕ, [], false, true, length, take, Some, None, Option, List, All, IsNone, IsSome, IfSome, IfNone, IfOk, slice_set};
ghost use Rattle.std.specs.Option.{option_copied, option_map};
ghost use Rattle.op_vector.specs.declared.data.VKind.{VKind};
ghost use Rattle.op_vector.specs.declared.data.VKind.TheVariants.{Mem, Null, Union, Dead};
ghost use Rattle.op_vector.specs.declared.data.VData.{VData};
ghost use Rattle.op_vector.specs.declared.data.Vid.{Vid};
ghost use Rattle.op_vector.specs.declared.data.VData.TheVariants.{Empty};
ghost use Rattle.op_vector.specs.Rack.{boxes_of, room_of, IsByKind};
ghost use Rattle.free_list.specs.Queue.{Queue, member};
ghost use Rattle.vnode_rec.specs.Identity.{identity};
ghost use Rattle.vnode_rec.specs.Holders.{occurs, row_in, held_in};
ghost use Rattle.vnode_rec.specs.Vnodes.{Table, slot_at, box_at, data_at, data_in, name_at, identity_at, vnode_of, empty_slot, kind_of_data, EachSlot, AreFilled, HasRoom, HasNone, IsCurrent, IsLive, IsEmptyAt, IsMatched, WasGiven, Grows};
ghost use Rattle.vnode_rec.specs.Effects.{queued, took, with_pair, TakesPair, LeftRow, HasPair, HasSwapped, HasEmptied, HasNoSlot, HasClaimed, HasFilled};

use crate::chains::{Chains, chain_for};
use crate::holders::Holders;
use crate::slot::Slot;
use free_list::FreeList;
use op_vector::{BoxedVop, Op, RackOf, Route, VData, VKind, Vid, Vop, ask};
use std::alloc::{AllocError, Global};
use std::marker::Model;
use std::mem;
use vfs_tree::Name;

/// What a row let go.
#[derive(Clone, Copy, Debug, PartialEq, Eq)]
pub struct Fell {
    /// The vnode.
    pub vid: Vid,
    /// Whether its use count became 0 by this.
    pub unused: bool,
    /// Whether its hold count is 0 now, so that it stands at the back of the free list.
    pub free: bool,
}

/// The vnodes, over operation vectors of a type `B`.
///
/// A vnode stands in a slot. A row is one holder, and has at most nine vnodes; the first rows are use rows. The hold
/// count of a vnode is the number of its occurrences in all rows, and the use count that in the use rows, as
/// vnode(9) counts them. A vnode that no row holds stands in the free list, from whose front it is recycled. The rack
/// has the vectors that no vnode has.
///
/// Contracts see the slots, the rows, the number of use rows, the free list and the rack.
#[derive(Drop)]
pub struct VnodeTableOf<B> {
    slots: Vec<Slot<B>>,
    holders: Holders,
    free: FreeList,
    empty: FreeList,
    chains: Chains,
    rack: RackOf<B>,
}

/// The vnodes, over the operation vectors of any file systems.
pub type VnodeTable = VnodeTableOf<BoxedVop>;

impl<B> Model for VnodeTableOf<B> {
    ghost use Rattle.vnode_rec.specs.Vnodes.{Table};
    ghost use Rattle.vnode_rec.specs.Sound.{IsSound};

    ghost Value = { Table B };

    ghost view = { λ t. record { slots = t.slots.items; rows = t.holders.rows; uses = t.holders.uses; free = t.free; rack = t.rack } };

    ghost invariant = { λ t. IsSound t.slots.items t.holders t.free t.empty t.chains.place t.chains.slots t.chains.chains t.rack };
}

/// So many empty slots, none of which has been filled.
fn empty_slots<B: Drop>(alloc: Global, count: usize) -> Result<Vec<Slot<B>>, AllocError>
    ensures len { IfOk result (λ slots. length slots.items ≡ count) }
    ensures empty { IfOk result (λ slots. All (λ slot. slot ≡ empty_slot 0) slots.items) }
{
    let mut slots = Vec::new(alloc);
    slots.reserve(count)?;
    for _ in 0..count {
        slots.push(Slot {
            vop: None,
            vdata: VData::Empty,
            name: None,
            generation: 0,
            doomed: false,
        })?;
    }
    Ok(slots)
}

/// A list of all slots.
fn all_slots(alloc: Global, slots: u32) -> Result<FreeList, AllocError>
    ensures slots { IfOk result (λ list. list.slots ≡ slots) }
    ensures all { IfOk result (λ list. (s : ℕ) → s < slots → member s list.queue ≡ true) }
{
    let mut list = FreeList::new(alloc, slots)?;
    for slot in 0..slots {
        list.push_back(slot);
    }
    Ok(list)
}

/// Each list of a rack has room for its boxes.
fn have_room<B>(rack: &RackOf<B>)
    ensures { (kind : VKind) → length (boxes_of kind rack.now) ≤ room_of kind rack.now }
{
    let _mem = rack.boxes(VKind::Mem);
    let _null = rack.boxes(VKind::Null);
    let _unions = rack.boxes(VKind::Union);
    let _dead = rack.boxes(VKind::Dead);
}

impl<B: Vop> VnodeTableOf<B> {
    /// A table of empty slots and empty rows, the first `uses` of them use rows. The only fault is want of memory, at
    /// which the rack is dropped.
    pub fn new(
        alloc: Global,
        slots: u32,
        uses: u32,
        holds: u32,
        rack: RackOf<B>,
    ) -> Result<VnodeTableOf<B>, AllocError>
        requires nine { 9 * (uses + holds) ≤ slots }
        requires mem { slots ≤ length (boxes_of Mem rack) }
        requires null { slots ≤ length (boxes_of Null rack) }
        requires unions { slots ≤ length (boxes_of Union rack) }
        requires dead { slots ≤ length (boxes_of Dead rack) }
        requires by_kind { IsByKind B.vkind rack }
        ensures matched { IfOk result (λ t. IsMatched B.vkind t) }
        ensures slots { IfOk result (λ t. length t.slots ≡ slots) }
        ensures empty { IfOk result (λ t. All (λ slot. slot ≡ empty_slot 0) t.slots) }
        ensures rows { IfOk result (λ t. length t.rows ≡ uses + holds) }
        ensures uses { IfOk result (λ t. t.uses ≡ uses) }
        ensures none { IfOk result (λ t. All (λ row. row ≡ []) t.rows) }
        ensures free { IfOk result (λ t. t.free ≡ record { queue = []; slots = slots }) }
        ensures rack { IfOk result (λ t. t.rack ≡ rack) }
    {
        have_room(&rack);
        let count = slots as usize;
        let made = empty_slots(alloc, count)?;
        let holders = Holders::new(alloc, count, uses as usize, holds as usize)?;
        let free = FreeList::new(alloc, slots)?;
        let empty = all_slots(alloc, slots)?;
        let chains = Chains::new(alloc, count, count + 1)?;
        Ok(VnodeTableOf {
            slots: made,
            holders,
            free,
            empty,
            chains,
            rack,
        })
    }

    /// The slot of a vnode. `None` comes exactly where the vnode isn't current.
    fn current(&self, vid: Vid) -> Option<&Slot<B>>
        ensures { option_copied result ≡ slot_at self.now vid }
    {
        match self.slots.get(vid.slot as usize) {
            Some(slot) => {
                if slot.vop.is_some() && slot.generation == vid.generation {
                    Some(slot)
                } else {
                    None
                }
            }
            None => None,
        }
    }

    /// The route of the operation by the vector in the vnode's own slot, with the vnode's data.
    pub fn dispatch(&self, vid: Vid, op: Op) -> Route
        requires { IsCurrent self.now vid }
        ensures { Some result ≡ option_map (λ b. B.routes b (data_in self.now vid) op) (box_at self.now vid) }
    {
        let slot = &self.slots[vid.slot as usize];
        match &slot.vop {
            Some(vop) => ask(vop, &slot.vdata, op),
            None => unreachable!(),
        }
    }

    /// The kind of the vector in the vnode's slot. `None` comes exactly where the vnode isn't current.
    pub fn kind_of(&self, vid: Vid) -> Option<VKind>
        ensures { result ≡ option_map (λ b. B.vkind b) (box_at self.now vid) }
    {
        let slot = self.current(vid)?;
        match &slot.vop {
            Some(vop) => Some(vop.kind()),
            None => None,
        }
    }

    /// The vnode's data. `None` comes exactly where the vnode isn't current.
    pub fn data_of(&self, vid: Vid) -> Option<&VData>
        ensures data { option_copied result ≡ data_at self.now vid }
        ensures current { IsSome result ↔ IsCurrent self.now vid }
    {
        let slot = self.current(vid)?;
        Some(&slot.vdata)
    }

    /// The vnode's name. `None` comes exactly where the vnode isn't current or has no name.
    pub fn name_of(&self, vid: Vid) -> Option<&Name>
        ensures { option_copied result ≡ name_at self.now vid }
    {
        let slot = self.current(vid)?;
        slot.name.as_ref()
    }

    /// The vnode at that place of a row, the lowest at 0. `None` comes exactly where the row has no such place.
    pub fn held(&self, row: u32, at: u32) -> Option<Vid>
        ensures { result ≡ held_in self.now.rows row at }
    {
        self.holders.get(row as usize, at as usize)
    }

    /// The vnode that isn't doomed and has the identity of this data and this name. `None` comes exactly where there
    /// is none.
    pub fn find(&self, vd: &VData, name: Option<&Name>) -> Option<Vid>
        ensures found { IfSome result (λ v. identity_at self.now v ≡ Some (identity vd.now (option_copied name.entry))) }
        ensures exact { result ≡ vnode_of (identity vd.now (option_copied name.entry)) self.now }
        ensures none { IsNone result ↔ HasNone (identity vd.now (option_copied name.entry)) self.now }
        ensures only { (v : Vid) → identity_at self.now v ≡ Some (identity vd.now (option_copied name.entry)) → result ≡ Some v }
    {
        let chain = chain_for(vd, name, self.chains.count());
        match self.chains.find(chain, self.slots.as_slice(), vd, name) {
            Some(slot) => Some(Vid {
                slot: slot as u32,
                generation: self.slots[slot].generation,
            }),
            None => None,
        }
    }

    /// How often the vnodes of a slot stand in use rows: the use count.
    pub fn use_count(&self, vid: Vid) -> u64
        requires { IsCurrent self.now vid }
        ensures { result ≡ occurs vid.slot (take self.now.uses self.now.rows) }
    {
        self.holders.use_count(vid.slot as usize)
    }

    /// How often the vnode stands in all rows: the hold count.
    pub fn hold_count(&self, vid: Vid) -> u64
        requires { IsCurrent self.now vid }
        ensures { result ≡ occurs vid.slot self.now.rows }
    {
        self.holders.hold_count(vid.slot as usize)
    }

    /// Puts a vnode on a row.
    fn hold(&mut self, row: u32, vid: Vid)
        requires current { IsCurrent self.old vid }
        requires there { row < length self.old.rows }
        requires room { length (row_in self.old.rows row) < 9 }
        ensures took { self.new ≡ took row vid self.old }
        ensures matched { IsMatched B.vkind self.old → IsMatched B.vkind self.new }
    {
        self.free.discard(vid.slot);
        self.holders.push(row as usize, vid);
    }

    /// Puts a vnode on top of a use row, as vref(9).
    pub fn vref(&mut self, row: u32, vid: Vid)
        requires current { IsCurrent self.old vid }
        requires use_row { row < self.old.uses }
        requires room { length (row_in self.old.rows row) < 9 }
        ensures took { self.new ≡ took row vid self.old }
        ensures matched { IsMatched B.vkind self.old → IsMatched B.vkind self.new }
    {
        self.keep_rows();
        self.hold(row, vid);
    }

    /// Puts a vnode on top of a hold row, as vhold(9).
    pub fn vhold(&mut self, row: u32, vid: Vid)
        requires current { IsCurrent self.old vid }
        requires hold_row { (self.old.uses ≤ row) × (row < length self.old.rows) }
        requires room { length (row_in self.old.rows row) < 9 }
        ensures took { self.new ≡ took row vid self.old }
        ensures matched { IsMatched B.vkind self.old → IsMatched B.vkind self.new }
    {
        self.hold(row, vid);
    }

    /// Takes the uppermost vnode out of a row, to the back of the free list where no row has it then.
    fn let_go(&mut self, row: u32) -> Vid
        requires there { row < length self.old.rows }
        requires some { 0 < length (row_in self.old.rows row) }
        ensures after { LeftRow row self.old result self.new }
        ensures matched { IsMatched B.vkind self.old → IsMatched B.vkind self.new }
    {
        let vid = self.holders.pop(row as usize);
        let free = self.holders.hold_count(vid.slot as usize) == 0;
        queue_if(&mut self.free, vid.slot, free);
        vid
    }

    /// What a vnode that was let go has become.
    fn fallen(&self, vid: Vid, was_used: bool) -> Fell
        requires { IsCurrent self.now vid }
        ensures vid { result.vid ≡ vid }
        ensures unused { result.unused ≡ (was_used && (occurs vid.slot (take self.now.uses self.now.rows) == 0)) }
        ensures free { result.free ≡ (occurs vid.slot self.now.rows == 0) }
    {
        Fell {
            vid,
            unused: was_used && self.use_count(vid) == 0,
            free: self.hold_count(vid) == 0,
        }
    }

    /// Takes the uppermost vnode out of a use row, as vrele(9).
    pub fn vrele(&mut self, row: u32) -> Fell
        requires use_row { row < self.old.uses }
        requires some { 0 < length (row_in self.old.rows row) }
        ensures after { LeftRow row self.old result.vid self.new }
        ensures matched { IsMatched B.vkind self.old → IsMatched B.vkind self.new }
        ensures unused { result.unused ≡ (occurs result.vid.slot (take self.new.uses self.new.rows) == 0) }
        ensures free { result.free ≡ (occurs result.vid.slot self.new.rows == 0) }
    {
        self.keep_rows();
        let vid = self.let_go(row);
        self.fallen(vid, true)
    }

    /// Takes the uppermost vnode out of a hold row, as vdrop(9). The use count stays.
    pub fn vdrop(&mut self, row: u32) -> Fell
        requires hold_row { (self.old.uses ≤ row) × (row < length self.old.rows) }
        requires some { 0 < length (row_in self.old.rows row) }
        ensures after { LeftRow row self.old result.vid self.new }
        ensures matched { IsMatched B.vkind self.old → IsMatched B.vkind self.new }
        ensures unused { result.unused ≡ false }
        ensures free { result.free ≡ (occurs result.vid.slot self.new.rows == 0) }
    {
        let vid = self.let_go(row);
        self.fallen(vid, false)
    }

    /// Takes all vnodes out of a row, the uppermost first. Those that no row has then go to the back of the free list.
    pub fn empty_row(&mut self, row: u32)
        requires { row < length self.old.rows }
        ensures rows { self.new.rows ≡ slice_set self.old.rows row [] }
        ensures others { self.new ≡ record self.old { rows = self.new.rows; free = self.new.free } }
        ensures matched { IsMatched B.vkind self.old → IsMatched B.vkind self.new }
    {
        let len = self.holders.row_len(row as usize);
        for _ in 0..len {
            self.let_go(row);
        }
    }

    /// Dooms a vnode: a vector of kind Dead comes from the rack into its slot, and the one that was there goes to the
    /// rack. All else stays. It takes no memory, and a dead vector is always there.
    pub fn swap_vector(&mut self, vid: Vid)
        requires matched { IsMatched B.vkind self.old }
        requires live { IsLive self.old vid }
        ensures matched { IsMatched B.vkind self.new }
        ensures swapped { HasSwapped B.vkind vid self.old self.new }
    {
        let Some(dead) = self.rack.take(VKind::Dead) else {
            unreachable!()
        };
        self.chains.discard(vid.slot as usize);
        let slot = &mut self.slots[vid.slot as usize];
        let Some(old) = mem::replace(&mut slot.vop, Some(dead)) else {
            unreachable!()
        };
        slot.doomed = true;
        self.rack.give(old);
    }

    /// Gives a union another computed pair. A vnode with a name keeps its lower vnode. It takes no memory.
    pub fn set_pair(&mut self, vid: Vid, upper: Option<Vid>, lower: Option<Vid>, at: u64)
        requires current { IsCurrent self.old vid }
        requires takes { TakesPair lower (name_at self.old vid) (data_in self.old vid) }
        ensures pair { HasPair vid upper lower at self.old self.new }
        ensures matched { IsMatched B.vkind self.old → IsMatched B.vkind self.new }
    {
        let slot = &mut self.slots[vid.slot as usize];
        slot.vdata = paired(slot.vdata, upper, lower, at);
    }

    /// As long as a row has room and no slot is empty, the free list has a slot.
    pub fn keeps_one(&self)
        ensures { HasRoom self.now.rows → AreFilled self.now.slots → self.now.free.queue ≢ [] }
    {
        self.holders.keep_rows();
    }

    /// Each use row is a row.
    fn keep_rows(&self)
        ensures { self.now.uses ≤ length self.now.rows }
    {
        self.holders.keep_rows();
    }

    /// Empties a slot of the free list. Its vector goes to the rack.
    fn reclaim(&mut self, slot: u32)
        requires matched { IsMatched B.vkind self.old }
        requires below { slot < length self.old.slots }
        requires listed { member slot self.old.free.queue ≡ true }
        requires low { EachSlot (λ s x. s ≡ slot → x.generation + 1 < 2 ^ 64) self.old.slots }
        ensures matched { IsMatched B.vkind self.new }
        ensures emptied { HasEmptied B.vkind slot self.old self.new }
    {
        self.free.remove(slot);
        self.empty.push_back(slot);
        self.chains.discard(slot as usize);
        let place = &mut self.slots[slot as usize];
        let Some(old) = mem::replace(&mut place.vop, None) else {
            unreachable!()
        };
        place.vdata = VData::Empty;
        place.name = None;
        place.doomed = false;
        self.rack.give(old);
    }

    /// An empty slot. Where there is none, the front of the free list is emptied, and its vector goes to the rack.
    ///
    /// `None` comes exactly where no slot is empty, and the free list is empty or the generation of its front is the
    /// greatest word. Nothing has changed then. It takes no memory.
    pub fn claim(&mut self) -> Option<u32>
        requires { IsMatched B.vkind self.old }
        ensures matched { IsMatched B.vkind self.new }
        ensures none { IsNone result ↔ HasNoSlot self.old }
        ensures kept { IfNone result (self.new ≡ self.old) }
        ensures claimed { IfSome result (λ s. HasClaimed B.vkind s self.old self.new) }
        ensures empty { IfSome result (λ s. IsEmptyAt self.new.slots s) }
        ensures absent { (id : VData × Option (List ℕ)) → HasNone id self.old → HasNone id self.new }
        ensures grows { Grows self.old self.new }
        ensures rows { self.new.rows ≡ self.old.rows }
        ensures uses { self.new.uses ≡ self.old.uses }
    {
        if let Some(slot) = self.empty.front() {
            return Some(slot);
        }
        let Some(front) = self.free.front() else {
            return None;
        };
        if self.slots[front as usize].generation == u64::MAX {
            return None;
        }
        self.reclaim(front);
        Some(front)
    }

    /// Puts a new vnode with this data and this name into an empty slot: a vector of the data's kind comes from the
    /// rack, the slot's generation rises, and the vnode goes to the back of the free list. It takes no memory.
    pub fn fill(&mut self, slot: u32, vd: VData, name: Option<Name>) -> Vid
        requires matched { IsMatched B.vkind self.old }
        requires empty { IsEmptyAt self.old.slots slot }
        requires some { vd ≢ Empty }
        requires absent { HasNone (identity vd name) self.old }
        ensures matched { IsMatched B.vkind self.new }
        ensures filled { HasFilled B.vkind slot vd name result self.old self.new }
        ensures found { identity_at self.new result ≡ Some (identity vd name) }
        ensures current { IsCurrent self.new result }
        ensures fresh { WasGiven self.old result → ⊥ }
        ensures grows { Grows self.old self.new }
        ensures rows { self.new.rows ≡ self.old.rows }
        ensures uses { self.new.uses ≡ self.old.uses }
    {
        let Some(vop) = self.rack.take(kind_for(&vd)) else {
            unreachable!()
        };
        let chain = chain_for(&vd, name.as_ref(), self.chains.count());
        self.chains.put(slot as usize, chain);
        self.empty.remove(slot);
        let place = &mut self.slots[slot as usize];
        let generation = place.generation + 1;
        *place = Slot {
            vop: Some(vop),
            vdata: vd,
            name,
            generation,
            doomed: false,
        };
        self.free.push_back(slot);
        Vid { slot, generation }
    }
}

/// The kind of vector that data asks for.
fn kind_for(vd: &VData) -> VKind
    ensures { result ≡ kind_of_data vd.now }
{
    match vd {
        VData::Empty => VKind::Dead,
        VData::Mem { .. } => VKind::Mem,
        VData::Null { .. } => VKind::Null,
        VData::Union { .. } => VKind::Union,
    }
}

/// Data with another computed pair.
fn paired(vd: VData, upper: Option<Vid>, lower: Option<Vid>, at: u64) -> VData
    ensures { result ≡ with_pair upper lower at vd }
{
    match vd {
        VData::Union { mount, ino, .. } => VData::Union {
            mount,
            ino,
            upper,
            lower,
            at,
        },
        other => other,
    }
}

/// Puts a slot at the back of a list where it is free.
fn queue_if(list: &mut FreeList, slot: u32, free: bool)
    requires below { slot < list.old.slots }
    requires absent { member slot list.old.queue ≡ false }
    ensures { list.new ≡ record list.old { queue = queued free slot list.old.queue } }
{
    if free {
        list.push_back(slot);
    }
}
