// Which live reference is the first: the one whose place is the deepest, and of those at one depth the one that comes
// before. A search looks at each reference once and keeps the best so far.
ghost use Rattle.std.specs.Prelude.{◌≡◌, map, None};
ghost use Rattle.std.specs.FinMap.{entries};
ghost use Rattle.call_model.specs.Refs as refs;
ghost use Rattle.call_laws.specs.Revoking.{first_open_on};
ghost use Rattle.plain_mounts.specs.Ranking as ranking;

use call_model::Ref;
use plain_views::is_of;
use vfs_paths::{base, depth};
use vfs_tree::{Cwd, NodeId, Open, Place, World};

/// A reference, and how many layers its place has under it.
#[derive(Clone, Copy)]
struct Ranked {
    at: Ref,
    depth: u64,
}

/// Which references a search looks for.
#[derive(Clone, Copy)]
enum Sought {
    /// Those in a mount, or in one that stands on it.
    InMount {
        /// The mount's number.
        mount: u32,
    },
    /// Those that rest on a node.
    OnNode {
        /// That node.
        node: NodeId,
    },
}

/// Whether a place is among those that are looked for.
fn is_sought(world: &World, sought: Sought, place: &Place) -> bool
    ensures { result ≡ ranking.is_sought world.now sought place.now }
{
    match sought {
        Sought::InMount { mount } => is_of(world, mount, place.mount()),
        Sought::OnNode { node } => {
            let rests = base(world, place);
            rests.store == node.store && rests.ino == node.ino
        }
    }
}

/// Whether a reference comes before another at the same depth: by caller, then descriptors upwards, then the current
/// directory.
fn comes_before(left: Ref, right: Ref) -> bool
    ensures { result ≡ refs.comes_before left right }
{
    match (left, right) {
        (
            Ref::Fd { caller, fd },
            Ref::Fd {
                caller: other,
                fd: number,
            },
        ) => { caller < other || caller == other && fd < number }
        (Ref::Fd { caller, .. }, Ref::Cwd { caller: other }) => caller <= other,
        (Ref::Cwd { caller }, Ref::Fd { caller: other, .. }) => caller < other,
        (Ref::Cwd { caller }, Ref::Cwd { caller: other }) => caller < other,
    }
}

/// Whether the left of two references is the first.
fn leads(left: Ranked, right: Ranked) -> bool
    ensures { result ≡ ranking.leads left right }
{
    right.depth < left.depth || left.depth == right.depth && comes_before(left.at, right.at)
}

/// The best so far with one more reference.
fn better(best: Option<Ranked>, other: Ranked) -> Option<Ranked>
    ensures { result ≡ ranking.better best other }
{
    match best {
        Some(so_far) => {
            if leads(other, so_far) {
                return Some(other);
            }
            Some(so_far)
        }
        None => Some(other),
    }
}

/// The best so far with one more open file, which counts where it is live and looked for.
fn with_open(
    world: &World,
    sought: Sought,
    best: Option<Ranked>,
    key: (u32, u32),
    opened: &Open,
) -> Option<Ranked>
    ensures { result ≡ ranking.offered world.now sought best (refs.open_reference (key, opened.now)) }
{
    if opened.dead || !is_sought(world, sought, &opened.place) {
        return best;
    }
    let at = Ref::Fd {
        caller: key.0,
        fd: key.1,
    };
    let depth = depth(world, &opened.place);
    better(best, Ranked { at, depth })
}

/// The best so far with one more current directory.
fn with_cwd(
    world: &World,
    sought: Sought,
    best: Option<Ranked>,
    caller: u32,
    cwd: &Cwd,
) -> Option<Ranked>
    ensures { result ≡ ranking.offered world.now sought best (refs.cwd_reference (caller, cwd.now)) }
{
    if cwd.dead || !is_sought(world, sought, &cwd.place) {
        return best;
    }
    let at = Ref::Cwd { caller };
    let depth = depth(world, &cwd.place);
    better(best, Ranked { at, depth })
}

/// The first of the live open files that are looked for.
fn best_open(world: &World, sought: Sought) -> Option<Ranked>
    ensures { result ≡ ranking.best_of world.now sought None (refs.open_references world.now) }
{
    let mut best = None;
    for (key, open) in world.opens.iter() {
        best = with_open(world, sought, best, *key, open);
    }
    best
}

/// The first of the best so far and the live current directories that are looked for.
fn best_cwd(world: &World, sought: Sought, before: Option<Ranked>) -> Option<Ranked>
    ensures { result ≡ ranking.best_of world.now sought before (map refs.cwd_reference (entries world.now.cwds)) }
{
    let mut best = before;
    for (caller, cwd) in world.cwds.iter() {
        best = with_cwd(world, sought, best, *caller, cwd);
    }
    best
}

/// Which reference was found.
fn at_of(best: Option<Ranked>) -> Option<Ref>
    ensures { result ≡ ranking.at_of best }
{
    match best {
        Some(best) => Some(best.at),
        None => None,
    }
}

/// The first live reference in a mount or in one that stands on it.
pub fn first_in(world: &World, mount: u32) -> Option<Ref>
    ensures { result ≡ refs.first_in world.now mount }
{
    let sought = Sought::InMount { mount };
    let opens = best_open(world, sought);
    at_of(best_cwd(world, sought, opens))
}

/// The first live open file that rests on a node.
pub fn first_open(world: &World, node: NodeId) -> Option<Ref>
    ensures { result ≡ first_open_on world.now node }
{
    at_of(best_open(world, Sought::OnNode { node }))
}
