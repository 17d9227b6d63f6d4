ghost use Rattle.std.specs.Prelude.{◌≡◌, IsOk, OnOk, OnErr};
ghost use Rattle.vfs_tree.specs.Nodes.{IsNumbered};
ghost use Rattle.call_model.specs.Effects.{effect};
ghost use Rattle.call_laws.specs.Fitting.{TakesNumber};
ghost use Rattle.plain_effects.specs.Room.{HasRoom, IsDoom};

use crate::copy_up::make_copy;
use crate::detach::detach;
use crate::dooms::doom;
use crate::shadow::make_shadow;
use call_model::Inner;
use std::alloc::{AllocError, Global};
use vfs_tree::World;

/// Does to the world what an inner entry of a caller does. The only fault is want of memory, which a doom never meets.
pub fn make_effect(
    alloc: Global,
    world: &mut World,
    caller: u32,
    what: &Inner,
) -> Result<(), AllocError>
    requires numbered { IsNumbered world.old }
    requires room { HasRoom world.old what.now }
    ensures ok { OnOk result (world.new ≡ effect world.old caller what.now) }
    ensures err { OnErr result (world.new ≡ world.old) }
    ensures number { OnOk result (TakesNumber world.old what.now) }
    ensures sure { IsDoom what.now → IsOk result }
    ensures kept { IsNumbered world.new }
{
    match what {
        Inner::Shadow { mount, dir, name } => make_shadow(alloc, world, *mount, *dir, name),
        Inner::CopyUp { mount, dir, name } => make_copy(alloc, world, *mount, *dir, name),
        Inner::Detach { mount } => detach(world, caller, *mount),
        Inner::Doom { at } => {
            doom(world, at);
            Ok(())
        }
    }
}
