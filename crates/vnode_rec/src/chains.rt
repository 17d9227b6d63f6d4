// The chains by which vnodes are found: put into one, taken out and searched, each in constant time but the search.
ghost use Rattle.std.specs.Prelude.{◌≡◌, ◌≢◌, ◌<◌, ◌≤◌, ◌+◌, ◌*◌, ◌^◌, ℕ, length, IfOk, IfSome, IfNone, slice_set};
ghost use Rattle.std.specs.Option.{option_copied};
ghost use Rattle.free_list.specs.Links.{at, AreLoopedTo};
ghost use Rattle.vnode_rec.specs.Chains.{mixed, mixed_all, seed_of, chain_of};
ghost use Rattle.vnode_rec.specs.Identity.{identity};
ghost use Rattle.vnode_rec.specs.Vnodes.{HasIdentity};

use crate::slot::Slot;
use op_vector::VData;
use std::alloc::{AllocError, Global};
use std::marker::Model;
use vfs_tree::Name;

/// Lists of slots, each in one chain or in none.
///
/// Each slot has a link to the next and to the one before. The end of chain `c` has the number of slots and `c` as its
/// number, and closes the chain to a ring. So a slot is put into a chain and taken out of it in constant time.
#[derive(Drop)]
pub struct Chains {
    next: Vec<usize>,
    prev: Vec<usize>,
    place: Vec<usize>,
    slots: usize,
    chains: usize,
}

impl Model for Chains {
    ghost use Rattle.vnode_rec.specs.Chains.{Links, AreChained};

    ghost Value = { Links };

    ghost view = { λ c. record { next = c.next.items; place = c.place.items; slots = c.slots; chains = c.chains } };

    ghost invariant = { λ c. AreChained c.next.items c.prev.items c.place.items c.slots c.chains };
}

/// Links that lead from each number below `count` to itself.
fn looped(alloc: Global, count: usize) -> Result<Vec<usize>, AllocError>
    ensures { IfOk result (λ links. AreLoopedTo links.items count) }
{
    let mut links = Vec::new(alloc);
    links.reserve(count)?;
    for i in 0..count {
        links.push(i)?;
    }
    Ok(links)
}

/// The place of each slot where none is in a chain.
fn nowhere(alloc: Global, slots: usize, chains: usize) -> Result<Vec<usize>, AllocError>
    ensures len { IfOk result (λ place. length place.items ≡ slots) }
    ensures nowhere { IfOk result (λ place. (s : ℕ) → s < slots → at place.items s ≡ chains) }
{
    let mut place = Vec::new(alloc);
    place.resize(slots, chains)?;
    Ok(place)
}

impl Chains {
    /// So many empty chains for so many slots.
    pub fn new(alloc: Global, slots: usize, chains: usize) -> Result<Chains, AllocError>
        requires { slots + chains < 2 ^ 63 }
        ensures slots { IfOk result (λ c. c.slots ≡ slots) }
        ensures chains { IfOk result (λ c. c.chains ≡ chains) }
        ensures len { IfOk result (λ c. length c.place ≡ slots) }
        ensures nowhere { IfOk result (λ c. (s : ℕ) → s < slots → at c.place s ≡ chains) }
    {
        let next = looped(alloc, slots + chains)?;
        let prev = looped(alloc, slots + chains)?;
        let place = nowhere(alloc, slots, chains)?;
        Ok(Chains {
            next,
            prev,
            place,
            slots,
            chains,
        })
    }

    /// How many chains there are.
    pub fn count(&self) -> usize
        ensures { result ≡ self.now.chains }
    {
        self.chains
    }

    /// The slot of a chain whose vnode has the identity of this data and this name.
    pub fn find<B>(
        &self,
        chain: usize,
        slots: &[Slot<B>],
        vd: &VData,
        name: Option<&Name>,
    ) -> Option<usize>
        requires chain { chain < self.now.chains }
        requires len { length slots.now ≡ self.now.slots }
        ensures found { IfSome result (λ s. (at self.now.place s ≡ chain) × HasIdentity (identity vd.now (option_copied name.entry)) slots.now s) }
        ensures none { IfNone result ((s : ℕ) → at self.now.place s ≡ chain → HasIdentity (identity vd.now (option_copied name.entry)) slots.now s → ⊥) }
    {
        let mut at = self.next[self.slots + chain];
        for _ in 0..slots.len() {
            if slots.len() <= at {
                return None;
            }
            if slots[at].is_of(vd, name) {
                return Some(at);
            }
            at = self.next[at];
        }
        None
    }

    /// Puts a slot that is in no chain at the end of one.
    pub fn put(&mut self, slot: usize, chain: usize)
        requires below { slot < self.old.slots }
        requires chain { chain < self.old.chains }
        requires nowhere { at self.old.place slot ≡ self.old.chains }
        ensures place { self.new.place ≡ slice_set self.old.place slot chain }
        ensures slots { self.new.slots ≡ self.old.slots }
        ensures chains { self.new.chains ≡ self.old.chains }
    {
        let end = self.slots + chain;
        let last = self.prev[end];
        self.next[last] = slot;
        self.next[slot] = end;
        self.prev[slot] = last;
        self.prev[end] = slot;
        self.place[slot] = chain;
    }

    /// Takes a slot out of its chain.
    pub fn remove(&mut self, slot: usize)
        requires below { slot < self.old.slots }
        requires somewhere { at self.old.place slot < self.old.chains }
        ensures place { self.new.place ≡ slice_set self.old.place slot self.old.chains }
        ensures slots { self.new.slots ≡ self.old.slots }
        ensures chains { self.new.chains ≡ self.old.chains }
    {
        let before = self.prev[slot];
        let after = self.next[slot];
        self.next[before] = after;
        self.prev[after] = before;
        self.place[slot] = self.chains;
    }

    /// Takes a slot out of its chain where it is in one.
    pub fn discard(&mut self, slot: usize)
        requires { slot < self.old.slots }
        ensures place { at self.old.place slot ≤ self.old.chains → self.new.place ≡ slice_set self.old.place slot self.old.chains }
        ensures slots { self.new.slots ≡ self.old.slots }
        ensures chains { self.new.chains ≡ self.old.chains }
    {
        if self.place[slot] < self.chains {
            self.remove(slot);
        }
    }
}

/// The hash with one byte more.
fn mix(hash: u64, byte: u8) -> u64
    requires { hash < 2 ^ 49 }
    ensures mixed { result ≡ mixed hash byte }
    ensures small { result < 2 ^ 49 }
{
    (hash * 31 + u64::from(byte)) % 4_294_967_296
}

/// The hash with more bytes.
fn mix_all(start: u64, bytes: &[u8]) -> u64
    requires { start < 2 ^ 49 }
    ensures { result ≡ mixed_all start bytes.now }
{
    let mut hash = start;
    for byte in bytes {
        hash = mix(hash, *byte);
    }
    hash
}

/// The hash that two numbers begin with.
fn pair_hash(mount: u32, number: u32) -> u64
    ensures hash { result ≡ mount * 65599 + number }
    ensures small { result < 2 ^ 49 }
{
    u64::from(mount) * 65_599 + u64::from(number)
}

/// The hash that data begins with.
fn seed(vd: &VData) -> u64
    ensures seed { result ≡ seed_of vd.now }
    ensures small { result < 2 ^ 49 }
{
    match vd {
        VData::Empty => 0,
        VData::Mem { mount, ino } => pair_hash(*mount, *ino),
        VData::Null { mount, lower } => pair_hash(*mount, lower.slot),
        VData::Union { mount, ino, .. } => pair_hash(*mount, *ino),
    }
}

/// The chain of a vnode with this data and this name.
pub fn chain_for(vd: &VData, name: Option<&Name>, chains: usize) -> usize
    requires { 0 < chains }
    ensures chain { result ≡ chain_of (identity vd.now (option_copied name.entry)) chains }
    ensures within { result < chains }
{
    let start = seed(vd);
    let hash = match name {
        Some(name) => mix_all(start, name.as_slice()),
        None => start,
    };
    hash as usize % chains
}
