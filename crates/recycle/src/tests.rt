ghost use Rattle.std.specs.Prelude.{◌≡◌, ◌≤◌, ◌∷◌, [], length, IsTrue, IfOk};
ghost use Rattle.op_vector.specs.declared.data.VKind.TheVariants.{Mem, Null, Union, Dead};
ghost use Rattle.op_vector.specs.Rack.{boxes_of, IsProper, IsProperBox};
ghost use Rattle.vnode_rec.specs.Vnodes.{HasRoom, IsCurrent, IsMatched};

use crate::recycle::new_vnode;
use crate::vectors::CountingVop;
use dead_ops::DeadVop;
use null_fs::NullVop;
use op_vector::{BoxedVop, Op, Rack, RackOf, Route, VData, VKind, Vid, Vop};
use std::alloc::{AllocError, Global};
use std::sync::Arc;
use std::sync::atomic::{AtomicU64, Ordering};
use std::test::Fail;
use union_fs::UnionVop;
use vfs_tree::{Errno, Name};
use vnode_rec::{Fell, VnodeTableOf};

// Whether each list has eighteen vectors.
fn is_full<B>(rack: &RackOf<B>) -> bool
    ensures mem { IsTrue result → 18 ≤ length (boxes_of Mem rack.now) }
    ensures null { IsTrue result → 18 ≤ length (boxes_of Null rack.now) }
    ensures unions { IsTrue result → 18 ≤ length (boxes_of Union rack.now) }
    ensures dead { IsTrue result → 18 ≤ length (boxes_of Dead rack.now) }
{
    rack.boxes(VKind::Mem).len() >= 18
        && rack.boxes(VKind::Null).len() >= 18
        && rack.boxes(VKind::Union).len() >= 18
        && rack.boxes(VKind::Dead).len() >= 18
}

// A table of eighteen slots, with a use row and a hold row, over a rack that was looked through.
#[tactic(auto, using(crate::proofs::TwoRows::two_rows))]
fn table_of<B: Vop>(alloc: Global, rack: RackOf<B>) -> Result<VnodeTableOf<B>, AllocError>
    ensures matched { IfOk result (λ t. IsMatched B.vkind t) }
    ensures rows { IfOk result (λ t. t.rows ≡ [] ∷ [] ∷ []) }
    ensures uses { IfOk result (λ t. t.uses ≡ 1) }
{
    if !rack.is_by_kind() || !is_full(&rack) {
        return Err(AllocError);
    }
    let table = VnodeTableOf::new(alloc, 18, 1, 1, rack)?;
    Ok(table)
}

// Makes the vnode of an inode of mount 0, which isn't there yet.
fn make<B: Vop>(alloc: Global, table: &mut VnodeTableOf<B>, ino: u32) -> Result<Vid, AllocError>
    requires matched { IsMatched B.vkind table.old }
    requires room { HasRoom table.old.rows }
    ensures matched { IsMatched B.vkind table.new }
    ensures rows { table.new.rows ≡ table.old.rows }
    ensures uses { table.new.uses ≡ table.old.uses }
    ensures current { IfOk result (λ vid. IsCurrent table.new vid) }
{
    let vd = VData::Mem { mount: 0, ino };
    match table.find(&vd, None) {
        Some(_) => Err(AllocError),
        None => new_vnode(alloc, table, vd, None),
    }
}

// Makes the vnode of inode 1, and puts it on row 0.
#[tactic(auto, using(crate::proofs::TwoRows::first_short, crate::proofs::TwoRows::first_taken, crate::proofs::TwoRows::second_has_room))]
fn hold_root<B: Vop>(alloc: Global, table: &mut VnodeTableOf<B>) -> Result<Vid, AllocError>
    requires matched { IsMatched B.vkind table.old }
    requires rows { table.old.rows ≡ [] ∷ [] ∷ [] }
    requires uses { table.old.uses ≡ 1 }
    ensures matched { IsMatched B.vkind table.new }
    ensures rows { IfOk result (λ vid. table.new.rows ≡ (vid ∷ []) ∷ [] ∷ []) }
    ensures uses { table.new.uses ≡ 1 }
{
    let vid = make(alloc, table, 1)?;
    table.vref(0, vid);
    Ok(vid)
}

// Makes a vnode, puts it on row 1 and lets it go.
#[tactic(auto, using(crate::proofs::TwoRows::second_has_room, crate::proofs::TwoRows::second_is, crate::proofs::TwoRows::second_short, crate::proofs::TwoRows::second_taken, crate::proofs::TwoRows::second_there, crate::proofs::TwoRows::second_some))]
fn comes_and_goes<B: Vop>(
    alloc: Global,
    table: &mut VnodeTableOf<B>,
    held: Vid,
    ino: u32,
) -> Result<Fell, AllocError>
    requires matched { IsMatched B.vkind table.old }
    requires rows { table.old.rows ≡ (held ∷ []) ∷ [] ∷ [] }
    requires uses { table.old.uses ≡ 1 }
    ensures matched { IsMatched B.vkind table.new }
    ensures rows { IfOk result (λ _. table.new.rows ≡ (held ∷ []) ∷ [] ∷ []) }
    ensures uses { table.new.uses ≡ 1 }
{
    let vid = make(alloc, table, ino)?;
    table.vhold(1, vid);
    Ok(table.vdrop(1))
}

// Whether the slot of the vnode has a greater generation than before, which is written down.
fn is_newer(before: &mut [u64], vid: Vid) -> bool {
    match before.get_mut(vid.slot as usize) {
        Some(generation) => {
            let newer = *generation < vid.generation;
            *generation = vid.generation;
            newer
        }
        None => false,
    }
}

// Whether the vnode of inode 1 is the one of row 0.
fn is_still_there<B: Vop>(table: &VnodeTableOf<B>, held: Vid) -> bool {
    table.held(0, 0) == Some(held)
        && table.data_of(held).is_some()
        && table.find(&VData::Mem { mount: 0, ino: 1 }, None) == Some(held)
}

// Forty vnodes come and go. Answers how many of them went, in a slot that is newer and not that of row 0's vnode.
fn forty<B: Vop>(alloc: Global, table: &mut VnodeTableOf<B>, held: Vid) -> Result<u32, AllocError>
    requires matched { IsMatched B.vkind table.old }
    requires rows { table.old.rows ≡ (held ∷ []) ∷ [] ∷ [] }
    requires uses { table.old.uses ≡ 1 }
    ensures matched { IsMatched B.vkind table.new }
{
    let mut generations = [0; 18];
    let mut count: u32 = 0;
    for ino in 2..42 {
        let fell = comes_and_goes(alloc, table, held, ino)?;
        let newer = is_newer(&mut generations, fell.vid) && fell.vid.slot != held.slot;
        let well = newer && fell.free && !fell.unused && is_still_there(table, held);
        count = count.saturating_add(u32::from(well));
    }
    Ok(count)
}

// Dooms the vnode of inode 1, and answers its number.
fn doom_root<B: Vop>(table: &mut VnodeTableOf<B>) -> Option<Vid>
    requires { IsMatched B.vkind table.old }
    ensures { IsMatched B.vkind table.new }
{
    match table.find(&VData::Mem { mount: 0, ino: 1 }, None) {
        Some(vid) => {
            table.swap_vector(vid);
            Some(vid)
        }
        None => None,
    }
}

// The route of an operation on a vnode. `None` comes where it isn't current.
fn route<B: Vop>(table: &VnodeTableOf<B>, vid: Vid, op: Op) -> Option<Route> {
    match table.data_of(vid) {
        Some(_) => Some(table.dispatch(vid, op)),
        None => None,
    }
}

// What the test looks at.
#[derive(Drop)]
struct Seen {
    went: u32,
    here: [Option<Route>; 2],
    kinds: [Option<VKind>; 2],
    doomed: bool,
    refused: [Option<Route>; 3],
}

fn run_through<B: Vop>(alloc: Global, rack: RackOf<B>) -> Result<Seen, AllocError> {
    let mut table = table_of(alloc, rack)?;
    let held = hold_root(alloc, &mut table)?;
    let went = forty(alloc, &mut table, held)?;
    let kind = table.kind_of(held);
    let here = [
        route(&table, held, Op::Read),
        route(&table, held, Op::Lookup),
    ];
    let doomed = doom_root(&mut table) == Some(held) && doom_root(&mut table).is_none();
    Ok(Seen {
        went,
        here,
        kinds: [kind, table.kind_of(held)],
        doomed,
        refused: [
            route(&table, held, Op::Read),
            route(&table, held, Op::Lookup),
            route(&table, held, Op::Open),
        ],
    })
}

// How many use rows and how many rows have the vnode.
fn counts<B: Vop>(table: &VnodeTableOf<B>, vid: Vid) -> Option<[u64; 2]> {
    match table.data_of(vid) {
        Some(_) => Some([table.use_count(vid), table.hold_count(vid)]),
        None => None,
    }
}

// Puts the vnode of row 0 on row 1 too, counts, and empties row 1.
#[tactic(auto, using(crate::proofs::TwoRows::second_is, crate::proofs::TwoRows::second_short, crate::proofs::TwoRows::second_taken, crate::proofs::TwoRows::second_there, crate::proofs::TwoRows::second_emptied))]
fn hold_twice<B: Vop>(table: &mut VnodeTableOf<B>, held: Vid) -> Option<[u64; 2]>
    requires matched { IsMatched B.vkind table.old }
    requires rows { table.old.rows ≡ (held ∷ []) ∷ [] ∷ [] }
    requires uses { table.old.uses ≡ 1 }
    ensures matched { IsMatched B.vkind table.new }
    ensures rows { table.new.rows ≡ (held ∷ []) ∷ [] ∷ [] }
    ensures uses { table.new.uses ≡ 1 }
{
    table.data_of(held)?;
    table.vhold(1, held);
    let both = counts(table, held);
    table.empty_row(1);
    both
}

// Makes the vnode of a name that is in the lower layer alone, whose lower vnode is that of row 0.
fn name_lower<B: Vop>(
    alloc: Global,
    table: &mut VnodeTableOf<B>,
    lower: Vid,
    name: &Name,
) -> Result<Vid, AllocError>
    requires matched { IsMatched B.vkind table.old }
    requires room { HasRoom table.old.rows }
    ensures matched { IsMatched B.vkind table.new }
    ensures rows { table.new.rows ≡ table.old.rows }
    ensures uses { table.new.uses ≡ table.old.uses }
{
    let vd = VData::Union {
        mount: 1,
        ino: 1,
        upper: None,
        lower: Some(lower),
        at: 0,
    };
    match table.find(&vd, Some(name)) {
        Some(_) => Err(AllocError),
        None => new_vnode(alloc, table, vd, Some(name)),
    }
}

// Gives a union's vnode another pair, with the same lower vnode.
fn pair_anew<B: Vop>(table: &mut VnodeTableOf<B>, vid: Vid, upper: Vid) -> Option<VData> {
    let lower = match table.data_of(vid) {
        Some(VData::Union { lower, .. }) => *lower,
        _ => return None,
    };
    table.set_pair(vid, Some(upper), lower, 7);
    table.data_of(vid).copied()
}

// Whether the vnode has the name, and the other one has none.
fn has_name<B: Vop>(table: &VnodeTableOf<B>, vid: Vid, name: &Name, other: Vid) -> bool {
    table.name_of(vid) == Some(name) && table.name_of(other).is_none()
}

// What the test of a named vnode looks at.
#[derive(Drop)]
struct Named {
    held: Vid,
    once: Option<[u64; 2]>,
    twice: Option<[u64; 2]>,
    fell: Fell,
    none: Option<[u64; 2]>,
    is_named: [bool; 2],
    pair: Option<VData>,
}

#[tactic(auto, using(crate::proofs::TwoRows::first_some, crate::proofs::TwoRows::second_has_room))]
fn run_named<B: Vop>(alloc: Global, rack: RackOf<B>) -> Result<Named, Fail> {
    let name = Name::new(alloc, b"name")?;
    let mut table = table_of(alloc, rack)?;
    let held = hold_root(alloc, &mut table)?;
    let once = counts(&table, held);
    let twice = hold_twice(&mut table, held);
    let vid = name_lower(alloc, &mut table, held, &name)?;
    let was_named = has_name(&table, vid, &name, held);
    let fell = table.vrele(0);
    let none = counts(&table, held);
    let pair = pair_anew(&mut table, vid, held);
    Ok(Named {
        held,
        once,
        twice,
        fell,
        none,
        is_named: [was_named, has_name(&table, vid, &name, held)],
        pair,
    })
}

// The list of one vector.
fn list_of<B: Drop>(alloc: Global, vector: B) -> Result<Vec<B>, AllocError>
    ensures { IfOk result (λ list. list.items ≡ vector ∷ []) }
{
    let mut list = Vec::new(alloc);
    list.push(vector)?;
    Ok(list)
}

// The rack of one vector of each kind but the first.
#[tactic(auto, using(crate::proofs::Racks::proper_rack))]
fn rack_of<B: Vop>(alloc: Global, null: B, both: B, dead: B) -> Result<RackOf<B>, AllocError>
    requires null { IsProperBox B.vkind B.routes Null null }
    requires both { IsProperBox B.vkind B.routes Union both }
    requires dead { IsProperBox B.vkind B.routes Dead dead }
    ensures { IfOk result (λ rack. IsProper B.vkind B.routes rack) }
{
    let nulls = list_of(alloc, null)?;
    let unions = list_of(alloc, both)?;
    let deads = list_of(alloc, dead)?;
    Ok(RackOf::new(Vec::new(alloc), nulls, unions, deads))
}

// How many dead vectors a proper rack has.
fn dead_count<B: Vop>(rack: &RackOf<B>) -> usize
    requires { IsProper B.vkind B.routes rack.now }
{
    rack.boxes(VKind::Dead).len()
}

#[test]
fn a_rack_of_boxes_is_proper(rt: HostRuntime) -> Result<(), AllocError> {
    let alloc = rt.alloc();
    let null: BoxedVop = Box::new(alloc, NullVop)?;
    let both: BoxedVop = Box::new(alloc, UnionVop)?;
    let dead: BoxedVop = Box::new(alloc, DeadVop)?;
    let rack = rack_of(alloc, null, both, dead)?;
    assert!(rt; dead_count(&rack) == 1);
    Ok(())
}

// Eighteen boxes with this vector.
macro_rules! vectors {
    ($alloc:expr, $vector:expr) => {{
        let mut vectors: Vec<BoxedVop> = Vec::new($alloc);
        for _ in 0..18 {
            let boxed: BoxedVop = Box::new($alloc, $vector)?;
            vectors.push(boxed)?;
        }
        vectors
    }};
}

// A rack of eighteen boxes of each kind. Those of kind Mem count with this counter how often they are asked.
macro_rules! rack {
    ($alloc:expr, $asked:expr) => {
        Rack::new(
            vectors!(
                $alloc,
                CountingVop {
                    asked: Arc::try_clone(&$asked)?
                }
            ),
            vectors!($alloc, NullVop),
            vectors!($alloc, UnionVop),
            vectors!($alloc, DeadVop),
        )
    };
}

#[test]
fn forty_vnodes_share_the_slots_beside_one(rt: HostRuntime) -> Result<(), AllocError> {
    let alloc = rt.alloc();
    let asked = Arc::new(alloc, AtomicU64::new(0))?;
    let rack = rack!(alloc, asked);
    let seen = run_through(alloc, rack)?;
    assert!(rt; seen.went == 40);
    let here = Some(Route::Here { ino: 1 });
    assert!(rt; seen.here == [here, here]);
    assert!(rt; asked.load(Ordering::SeqCst) == 2);
    assert!(rt; seen.kinds == [Some(VKind::Mem), Some(VKind::Dead)]);
    assert!(rt; seen.doomed);
    let refused = [Errno::EIO, Errno::ENOTDIR, Errno::ENXIO];
    assert!(rt; seen.refused == refused.map(|errno| Some(Route::Refuse { errno })));
    Ok(())
}

#[test]
fn counts_of_a_vnode_and_a_vnode_with_a_name(rt: HostRuntime) -> Result<(), Fail> {
    let alloc = rt.alloc();
    let asked = Arc::new(alloc, AtomicU64::new(0))?;
    let rack = rack!(alloc, asked);
    let seen = run_named(alloc, rack)?;
    assert!(rt; seen.once == Some([1, 1]));
    assert!(rt; seen.twice == Some([1, 2]));
    assert!(rt; seen.fell.vid == seen.held);
    assert!(rt; seen.fell.unused && seen.fell.free);
    assert!(rt; seen.none == Some([0, 0]));
    assert!(rt; seen.is_named == [true, true]);
    let pair = VData::Union {
        mount: 1,
        ino: 1,
        upper: Some(seen.held),
        lower: Some(seen.held),
        at: 7,
    };
    assert!(rt; seen.pair == Some(pair));
    Ok(())
}
