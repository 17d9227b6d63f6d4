ghost use Rattle.std.specs.Prelude.{◌≡◌, ◌≢◌, ◌<◌, ◌-◌, ◌^◌, ℕ, None, Some, IsOk, IfOk, OnErr};
ghost use Rattle.std.specs.Option.{option_copied};
ghost use Rattle.op_vector.specs.declared.data.VData.TheVariants.{Empty};
ghost use Rattle.vnode_rec.specs.Identity.{identity};
ghost use Rattle.vnode_rec.specs.Vnodes.{data_at, identity_at, EachSlot, HasRoom, HasNone, IsCurrent, IsMatched, WasGiven, Grows};

use finite_maps::Duplicate;
use op_vector::{VData, Vid, Vop};
use std::alloc::{AllocError, Global};
use vfs_tree::Name;
use vnode_rec::VnodeTableOf;

/// A copy of a name, where there is one.
fn copy_name(alloc: Global, name: Option<&Name>) -> Result<Option<Name>, AllocError>
    ensures copied { IfOk result (λ copy. copy ≡ option_copied name.entry) }
    ensures always { name.entry ≡ None → IsOk result }
{
    match name {
        Some(name) => Ok(Some(name.duplicate(alloc)?)),
        None => Ok(None),
    }
}

/// A new vnode with this data and a copy of this name, in an empty slot, or else in the slot at the front of the free
/// list. It is free until a row takes it.
///
/// The only fault is want of memory: for the copy of the name, or where the slot at the front has the greatest
/// generation. So without a name it never comes where no slot has the greatest generation. Nothing has changed then.
pub fn new_vnode<B: Vop>(
    alloc: Global,
    table: &mut VnodeTableOf<B>,
    vd: VData,
    name: Option<&Name>,
) -> Result<Vid, AllocError>
    requires matched { IsMatched B.vkind table.old }
    requires room { HasRoom table.old.rows }
    requires some { vd ≢ Empty }
    requires absent { HasNone (identity vd (option_copied name)) table.old }
    ensures matched { IsMatched B.vkind table.new }
    ensures always { name.entry ≡ None → EachSlot (λ s slot. slot.generation ≢ 2 ^ 64 - 1) table.old.slots → IsOk result }
    ensures err { OnErr result (table.new ≡ table.old) }
    ensures found { IfOk result (λ vid. identity_at table.new vid ≡ Some (identity vd (option_copied name.entry))) }
    ensures vdata { IfOk result (λ vid. data_at table.new vid ≡ Some vd) }
    ensures current { IfOk result (λ vid. IsCurrent table.new vid) }

    // No vnode that was there before is given again, and those that are held stay as they are.
    ensures fresh { IfOk result (λ vid. WasGiven table.old vid → ⊥) }
    ensures grows { Grows table.old table.new }
    ensures rows { table.new.rows ≡ table.old.rows }
    ensures uses { table.new.uses ≡ table.old.uses }
{
    let name = copy_name(alloc, name)?;
    table.keeps_one();
    let Some(slot) = table.claim() else {
        return Err(AllocError);
    };
    Ok(table.fill(slot, vd, name))
}
