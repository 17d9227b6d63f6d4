// The names that a directory shows.
ghost use Rattle.std.specs.Prelude.{◌≡◌, [], suc, IfOk};
ghost use Rattle.vfs_tree.specs.Place.{UnionUp};
ghost use Rattle.vfs_tree.specs.declared.walk.Step.TheVariants.{Go};
ghost use Rattle.vfs_tree.specs.Views.{facts_of};
ghost use Rattle.vfs_tree.specs.Visible as listing;
ghost use Rattle.plain_views.specs.Hidden.{any_listed_under};

use crate::hidden::has_unhidden_at;
use crate::shown::{given_at, merged_at};
use std::alloc::{AllocError, Global};
use vfs_paths::{low, upper_store};
use vfs_tree::{Child, NameList, Need, NodeId, Place, Step, View, World};

/// No names.
fn nothing(alloc: Global) -> Step<NameList, Need>
    ensures { result ≡ Go [] }
{
    Step::Go {
        value: NameList::of(Vec::new(alloc)),
    }
}

/// The names of a lower part, where there is one.
#[cycle(lower)]
fn listed_below(
    alloc: Global,
    world: &World,
    steps: u64,
    below: Child,
) -> Result<Step<NameList, Need>, AllocError>
    ensures { IfOk result (λ step. step ≡ listing.listed_below (listing.visible_within steps world.now) below) }
{
    match below {
        Child::At { place } => visible_within(alloc, world, steps, &place),
        Child::Absent => Ok(nothing(alloc)),
        Child::Need { need } => Ok(Step::Wants { what: need }),
    }
}

/// The names of a union's directory, through at most that many mounts below it.
#[cycle(lower)]
fn visible_union(
    alloc: Global,
    world: &World,
    steps: u64,
    mount: u32,
    dir: u32,
) -> Result<Step<NameList, Need>, AllocError>
    ensures { IfOk result (λ step. step ≡ listing.visible_within (suc steps) world.now (UnionUp mount dir)) }
{
    let below = low(alloc, world, mount, dir)?;
    match listed_below(alloc, world, steps, below)? {
        Step::Go { value } => Ok(Step::Go {
            value: merged_at(alloc, world, upper_store(world, mount), dir, &value)?,
        }),
        Step::Refuse { errno } => Ok(Step::Refuse { errno }),
        Step::Wants { what } => Ok(Step::Wants { what }),
    }
}

/// The names that a directory shows, through at most that many mounts.
#[cycle(lower)]
fn visible_within(
    alloc: Global,
    world: &World,
    steps: u64,
    place: &Place,
) -> Result<Step<NameList, Need>, AllocError>
    ensures { IfOk result (λ step. step ≡ listing.visible_within steps world.now place.now) }
{
    if steps == 0 {
        return Ok(nothing(alloc));
    }
    match &place.view {
        View::Mem { mount, ino } => Ok(Step::Go {
            value: given_at(alloc, world, *mount, *ino)?,
        }),
        View::Null { lower, .. } => Ok(visible_within(alloc, world, steps - 1, lower)?),
        View::UnionUp { mount, ino } => {
            Ok(visible_union(alloc, world, steps - 1, *mount, *ino)?)
        }
        View::UnionLow { .. } => Ok(nothing(alloc)),
    }
}

/// The names that a directory shows, once each, in byte order; where its lower part needs a shadow directory first, that
/// need. The only fault is want of memory.
pub fn visible(
    alloc: Global,
    world: &World,
    place: &Place,
) -> Result<Step<NameList, Need>, AllocError>
    ensures { IfOk result (λ step. step ≡ listing.visible world.now place.now) }
{
    visible_within(alloc, world, u64::from(place.mount()) + 1, place)
}

/// Whether a union's directory shows a name that none of those above hides, through at most that many mounts below it,
/// or a name was found before.
#[cycle(shows)]
fn has_visible_union(
    alloc: Global,
    world: &World,
    steps: u64,
    mount: u32,
    dir: u32,
    mut above: Vec<NodeId>,
    found: bool,
) -> Result<Step<bool, Need>, AllocError>
    ensures { IfOk result
        (λ step. step ≡ any_listed_under world.now above.items found
        (listing.visible_within (suc steps) world.now (UnionUp mount dir))) }
{
    let store = upper_store(world, mount);
    let shows = has_unhidden_at(world, &above, found, store, dir);
    match low(alloc, world, mount, dir)? {
        Child::At { place } => {
            above.push(NodeId { store, ino: dir })?;
            Ok(has_visible_within(alloc, world, steps, &place, above, shows)?)
        }
        Child::Absent => Ok(Step::Go { value: shows }),
        Child::Need { need } => Ok(Step::Wants { what: need }),
    }
}

/// Whether a directory shows a name that none of those above hides, through at most that many mounts, or a name was
/// found before.
#[cycle(shows)]
fn has_visible_within(
    alloc: Global,
    world: &World,
    steps: u64,
    place: &Place,
    above: Vec<NodeId>,
    found: bool,
) -> Result<Step<bool, Need>, AllocError>
    ensures { IfOk result
        (λ step. step ≡ any_listed_under world.now above.items found
        (listing.visible_within steps world.now place.now)) }
{
    if steps == 0 {
        return Ok(Step::Go { value: found });
    }
    match &place.view {
        View::Mem { mount, ino } => Ok(Step::Go {
            value: has_unhidden_at(world, &above, found, *mount, *ino),
        }),
        View::Null { lower, .. } => {
            Ok(has_visible_within(alloc, world, steps - 1, lower, above, found)?)
        }
        View::UnionUp { mount, ino } => {
            Ok(has_visible_union(alloc, world, steps - 1, *mount, *ino, above, found)?)
        }
        View::UnionLow { .. } => Ok(Step::Go { value: found }),
    }
}

/// Whether a directory shows a name; where its lower part needs a shadow directory first, that need. Names are neither
/// listed nor copied: each is looked up in the directories above its own, until one is shown. The only fault is want of
/// memory.
pub fn has_visible(
    alloc: Global,
    world: &World,
    place: &Place,
) -> Result<Step<bool, Need>, AllocError>
    ensures { IfOk result (λ step. step ≡ listing.has_visible world.now place.now) }
{
    let above = Vec::new(alloc);
    has_visible_within(
        alloc,
        world,
        u64::from(place.mount()) + 1,
        place,
        above,
        false,
    )
}
