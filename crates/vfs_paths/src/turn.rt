ghost use Rattle.std.specs.Prelude.{◌≡◌, ◌∷◌, ◌&&◌, IfOk};
ghost use Rattle.std.specs.Option.{option_copied};
ghost use Rattle.vfs_tree.specs.Walk as walk;
ghost use Rattle.vfs_tree.specs.Walk.{Jump};
ghost use Rattle.vfs_tree.specs.declared.walk.Step.TheVariants.{Go};
ghost use Rattle.vfs_paths.specs.Turns.{turned, on_to};

use crate::child::child_of;
use crate::crossing::{above, check_dir, enter};
use crate::layers::target_of;
use crate::rest::Rest;
use std::alloc::{AllocError, Global};
use vfs_tree::{Bytes, Child, Component, Errno, Found, Leaf, Name, NameView, Need, Place, Step};

/// What one component of a walk leads to.
#[derive(Debug, Drop)]
pub enum Turn {
    /// The walk goes on there with the rest.
    On {
        /// The place that was reached.
        dir: Place,
    },
    /// The walk goes on with the path of a link and then with the rest.
    Link {
        /// That path.
        text: Bytes,
        /// The directory that has the link.
        dir: Place,
    },
    /// The walk ends.
    End {
        /// With this.
        found: Step<Found, Need>,
    },
}

/// The walk goes on where the place was reached, and ends where it was not.
fn turn_to(step: Step<Place, Need>) -> Turn
    ensures { result ≡ on_to step }
{
    match step {
        Step::Go { value } => Turn::On { dir: value },
        Step::Refuse { errno } => Turn::End {
            found: Step::Refuse { errno },
        },
        Step::Wants { what } => Turn::End {
            found: Step::Wants { what },
        },
    }
}

/// Whether a mount that is cut may be entered: by the last component of a walk to a mount.
fn goes_into_cut(leaf: Leaf, rest: &Rest) -> bool
    ensures { result ≡ (walk.is_mount leaf && walk.is_last rest.now) }
{
    match leaf {
        Leaf::Mount => rest.is_last(),
        Leaf::Follow => false,
        Leaf::NoFollow => false,
        Leaf::Parent => false,
        Leaf::Create => false,
    }
}

/// A place that was found is entered; the last one of a walk to a mount goes into a cut mount too.
pub(crate) fn entered<V: NameView>(
    alloc: Global,
    view: &V,
    leaf: Leaf,
    rest: &Rest,
    place: Place,
) -> Result<Step<Place, Need>, AllocError>
    ensures { IfOk result (λ step. step ≡ walk.entered (V.facts view.now) leaf rest.now place) }
{
    let into_cut = goes_into_cut(leaf, rest);
    enter(alloc, view, into_cut, place)
}

/// The answer of `Create` where a name is absent: the directory and the name, where it is the last one.
#[tactic(auto, using(crate::proofs::TurnLaws::absent_last, crate::proofs::TurnLaws::absent_within))]
fn absent_in_create(rest: &Rest, dir: Place, name: Name) -> Step<Found, Need>
    ensures { result ≡ walk.absent Leaf.Create rest.now dir name }
{
    let last = rest.is_last();
    if last {
        Step::Go {
            value: Found::In {
                dir,
                name,
                child: None,
            },
        }
    } else {
        Step::Refuse {
            errno: Errno::ENOENT,
        }
    }
}

/// Where a name is absent: an answer of `Create`, where it is the last one, and else ENOENT.
fn absent(leaf: Leaf, rest: &Rest, dir: Place, name: Name) -> Step<Found, Need>
    ensures { result ≡ walk.absent leaf rest.now dir name }
{
    let errno = Errno::ENOENT;
    match leaf {
        Leaf::Create => absent_in_create(rest, dir, name),
        Leaf::Follow => Step::Refuse { errno },
        Leaf::NoFollow => Step::Refuse { errno },
        Leaf::Parent => Step::Refuse { errno },
        Leaf::Mount => Step::Refuse { errno },
    }
}

/// The path of a link that a walk of `NoFollow` follows: each but the last one.
#[tactic(auto, using(crate::proofs::TurnLaws::kept_last, crate::proofs::TurnLaws::followed_within))]
fn followed_on_the_way<'a, V: NameView>(view: &'a V, rest: &Rest, place: &Place) -> Option<&'a [u8]>
    ensures { option_copied result ≡ walk.followed (V.facts view.now) Leaf.NoFollow rest.now place.now }
{
    if rest.is_last() {
        None
    } else {
        target_of(view, place)
    }
}

/// The path of a link that is to be followed: each but the last one of `NoFollow`.
fn followed<'a, V: NameView>(
    view: &'a V,
    leaf: Leaf,
    rest: &Rest,
    place: &Place,
) -> Option<&'a [u8]>
    ensures { option_copied result ≡ walk.followed (V.facts view.now) leaf rest.now place.now }
{
    match leaf {
        Leaf::NoFollow => followed_on_the_way(view, rest, place),
        Leaf::Follow => target_of(view, place),
        Leaf::Parent => target_of(view, place),
        Leaf::Create => target_of(view, place),
        Leaf::Mount => target_of(view, place),
    }
}

/// What stands at a name is entered, or its link is to be followed.
#[tactic(auto, using(crate::proofs::TurnLaws::turned_on))]
fn pass_child<V: NameView>(
    alloc: Global,
    view: &V,
    leaf: Leaf,
    rest: &Rest,
    dir: Place,
    name: Name,
    child: Child,
) -> Result<Turn, AllocError>
    ensures { (jump : Jump) → IfOk result
        (λ turn. turned (V.facts view.now) leaf jump rest.now turn
        ≡ walk.pass_child (V.facts view.now) leaf (λ text. jump text rest.now dir) rest.now (walk.along (V.facts view.now) leaf jump rest.now) dir name child) }
{
    match child {
        Child::At { place } => match followed(view, leaf, rest, &place) {
            Some(text) => Ok(Turn::Link {
                text: Bytes::copy_of(alloc, text)?,
                dir,
            }),
            None => {
                let step = entered(alloc, view, leaf, rest, place)?;
                Ok(turn_to(step))
            }
        },
        Child::Absent => Ok(Turn::End {
            found: absent(leaf, rest, dir, name),
        }),
        Child::Need { need } => Ok(Turn::End {
            found: Step::Wants { what: need },
        }),
    }
}

/// One component is looked up in a directory that was checked.
#[tactic(auto, using(crate::proofs::TurnLaws::turned_on))]
fn look_up<V: NameView>(
    alloc: Global,
    view: &V,
    leaf: Leaf,
    component: Component,
    rest: &Rest,
    dir: Place,
) -> Result<Turn, AllocError>
    requires { walk.check_dir (V.facts view.now) dir ≡ Go tt }
    ensures { (jump : Jump) → IfOk result
        (λ turn. turned (V.facts view.now) leaf jump rest.now turn ≡ walk.along (V.facts view.now) leaf jump (component ∷ rest.now) dir) }
{
    match component {
        Component::Dot => {
            let step = entered(alloc, view, leaf, rest, dir)?;
            Ok(turn_to(step))
        }
        Component::DotDot => {
            let up = above(alloc, view, dir)?;
            let step = entered(alloc, view, leaf, rest, up)?;
            Ok(turn_to(step))
        }
        Component::Name { name } => {
            let child = child_of(alloc, view, &dir, &name)?;
            pass_child(alloc, view, leaf, rest, dir, name, child)
        }
    }
}

/// One component is looked up in a directory: ENOTDIR where that is none, ENOENT where it was removed, and else where the
/// component leads.
pub fn pass<V: NameView>(
    alloc: Global,
    view: &V,
    leaf: Leaf,
    component: Component,
    rest: &Rest,
    dir: Place,
) -> Result<Turn, AllocError>
    ensures { (jump : Jump) → IfOk result
        (λ turn. turned (V.facts view.now) leaf jump rest.now turn ≡ walk.along (V.facts view.now) leaf jump (component ∷ rest.now) dir) }
{
    match check_dir(view, &dir) {
        Step::Go { .. } => look_up(alloc, view, leaf, component, rest, dir),
        Step::Refuse { errno } => Ok(Turn::End {
            found: Step::Refuse { errno },
        }),
        Step::Wants { what } => Ok(Turn::End {
            found: Step::Wants { what },
        }),
    }
}
