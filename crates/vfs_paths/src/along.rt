ghost use Rattle.std.specs.Prelude.{◌≡◌, suc, IfOk};
ghost use Rattle.vfs_tree.specs.Walk as walk;
ghost use Rattle.vfs_tree.specs.Walk.{Jump};
ghost use Rattle.vfs_paths.specs.Turns.{halted, onward};

use crate::path::{PathText, read};
use crate::rest::Rest;
use crate::turn::{Turn, entered, pass};
use std::alloc::{AllocError, Global};
use vfs_tree::{Bytes, Errno, Found, Leaf, NameView, Need, Place, Step};

/// The most links that a walk follows, as `MAXSYMLINKS` of FreeBSD.
fn most_links() -> u32
    ensures { result ≡ 32 }
{
    32
}

/// Where a walk along components stops.
#[derive(Debug, Drop)]
pub enum Halt {
    /// At its end.
    End {
        /// With this.
        found: Step<Found, Need>,
    },
    /// At a link that is to be followed.
    Link {
        /// Its path.
        text: Bytes,
        /// The directory that has the link.
        dir: Place,
    },
}

/// Goes along the components to the end of the walk or to the next link.
fn to_link<V: NameView>(
    alloc: Global,
    view: &V,
    leaf: Leaf,
    rest: &mut Rest,
    start: Place,
) -> Result<Halt, AllocError>
    ensures { (jump : Jump) → IfOk result
        (λ halt. halted jump rest.new halt ≡ walk.along (V.facts view.now) leaf jump rest.old start) }
{
    let mut dir = start;
    while let Some(component) = rest.pop() {
        match pass(alloc, view, leaf, component, rest, dir)? {
            Turn::On { dir: next } => dir = next,
            Turn::Link { text, dir } => return Ok(Halt::Link { text, dir }),
            Turn::End { found } => return Ok(Halt::End { found }),
        }
    }
    Ok(Halt::End {
        found: Step::Go {
            value: Found::At { place: dir },
        },
    })
}

/// Where a walk begins: an absolute path at the root directory, which is entered, a relative one where it is said.
fn begin<V: NameView>(
    alloc: Global,
    view: &V,
    leaf: Leaf,
    absolute: bool,
    rest: &Rest,
    from: Step<Place, Need>,
) -> Result<Step<Place, Need>, AllocError>
    ensures { IfOk result
        (λ step. step ≡ walk.begin (V.facts view.now) leaf (record { absolute = absolute; parts = rest.now }) from) }
{
    if absolute {
        return entered(alloc, view, leaf, rest, Place::mem(0, 1));
    }
    Ok(from)
}

/// Goes on along the components where the place was reached.
#[cycle(links)]
fn go_on<V: NameView>(
    alloc: Global,
    view: &V,
    leaf: Leaf,
    links: u32,
    rest: Rest,
    from: Step<Place, Need>,
) -> Result<Step<Found, Need>, AllocError>
    ensures { IfOk result
        (λ step. step ≡ onward (V.facts view.now) leaf (walk.jump_within links (V.facts view.now) leaf) rest from) }
{
    match from {
        Step::Go { value } => along(alloc, view, leaf, links, rest, value),
        Step::Refuse { errno } => Ok(Step::Refuse { errno }),
        Step::Wants { what } => Ok(Step::Wants { what }),
    }
}

/// Goes on along the path of a link, whose components stand before the rest.
#[cycle(links)]
fn jump_along<V: NameView>(
    alloc: Global,
    view: &V,
    leaf: Leaf,
    links: u32,
    path: PathText,
    mut rest: Rest,
    dir: Place,
) -> Result<Step<Found, Need>, AllocError>
    ensures { IfOk result
        (λ step. step ≡ walk.jump_along (V.facts view.now) leaf (walk.jump_within links (V.facts view.now) leaf) (walk.spliced path rest) dir) }
{
    let absolute = path.is_absolute();
    rest.put_before(path)?;
    let from = begin(alloc, view, leaf, absolute, &rest, Step::Go { value: dir })?;
    go_on(alloc, view, leaf, links, rest, from)
}

/// Follows a link: the walk goes on in the directory that has the link, or at the root directory where its path is absolute.
#[cycle(links)]
fn jump<V: NameView>(
    alloc: Global,
    view: &V,
    leaf: Leaf,
    links: u32,
    text: Bytes,
    rest: Rest,
    dir: Place,
) -> Result<Step<Found, Need>, AllocError>
    ensures { IfOk result
        (λ step. step ≡ walk.jump_within (suc links) (V.facts view.now) leaf text rest dir) }
{
    match read(alloc, text.as_slice())? {
        Step::Go { value } => jump_along(alloc, view, leaf, links, value, rest, dir),
        Step::Refuse { errno } => Ok(Step::Refuse { errno }),
        Step::Wants { what } => Ok(Step::Wants { what }),
    }
}

/// Goes along the components, and follows at most that many links. One link more is ELOOP, whatever its path is.
#[cycle(links)]
fn along<V: NameView>(
    alloc: Global,
    view: &V,
    leaf: Leaf,
    links: u32,
    mut rest: Rest,
    dir: Place,
) -> Result<Step<Found, Need>, AllocError>
    ensures { IfOk result
        (λ step. step ≡ walk.along (V.facts view.now) leaf (walk.jump_within links (V.facts view.now) leaf) rest dir) }
{
    match to_link(alloc, view, leaf, &mut rest, dir)? {
        Halt::End { found } => Ok(found),
        Halt::Link { text, dir } => {
            if links == 0 {
                return Ok(Step::Refuse {
                    errno: Errno::ELOOP,
                });
            }
            jump(alloc, view, leaf, links - 1, text, rest, dir)
        }
    }
}

/// Walks along a path. A relative one begins where it is said.
pub(crate) fn walk_path<V: NameView>(
    alloc: Global,
    view: &V,
    leaf: Leaf,
    from: Step<Place, Need>,
    path: PathText,
) -> Result<Step<Found, Need>, AllocError>
    ensures { IfOk result (λ step. step ≡ walk.walk_path (V.facts view.now) leaf from path) }
{
    let absolute = path.is_absolute();
    let rest = Rest::of(path);
    let start = begin(alloc, view, leaf, absolute, &rest, from)?;
    go_on(alloc, view, leaf, most_links(), rest, start)
}
