ghost use Rattle.std.specs.Prelude.{◌≡◌, IfErr};
ghost use Rattle.vfs_tree.specs.Layers.{kind_in};
ghost use Rattle.vfs_tree.specs.Views.{facts_of};
ghost use Rattle.call_model.specs.Checks as checks;
ghost use Rattle.call_model.specs.NameRows as rows;
ghost use Rattle.plain_checks.specs.Coming.{Answers, Replies};
ghost use Rattle.plain_names.specs.Decided.{IsDecided};

use call_model::MountWord;
use plain_checks::{Answer, Stop, place_at};
use vfs_paths::base;
use vfs_tree::{Bytes, Errno, Found, Kind, MountKind, Node, Place, World};

/// The size in bytes as an answer gives it.
fn size_of(bytes: &Bytes) -> u32
    ensures { result ≡ rows.size_of bytes.now }
{
    bytes.len().min(4294967295) as u32
}

/// The kind and size of a place, as stat(2) gives them; ENOENT where no node is there. It never wants memory.
pub fn stat_of(world: &World, place: &Place) -> Result<Answer, Stop>
    ensures replies { Replies (rows.stat_of (checks.node_of world.now place.now)) result }
    ensures sure { IfErr result IsDecided }
{
    let at = base(world, place);
    match world.node(at.store, at.ino) {
        Some(Node::Dir { .. }) => Ok(Answer::stat(Kind::Dir, 0)),
        Some(Node::File { bytes }) => Ok(Answer::stat(Kind::File, size_of(bytes))),
        Some(Node::Link { target }) => Ok(Answer::stat(Kind::Link, size_of(target))),
        None => Err(Stop::Refused {
            errno: Errno::ENOENT,
        }),
    }
}

/// stat(2), and lstat(2), whose walk doesn't follow a last link.
#[tactic(auto, using(plain_checks::proofs::Binding::stops_answer, plain_checks::proofs::Binding::goes_answer, plain_checks::proofs::Binding::replies))]
pub fn stat(world: &World, found: Found) -> Result<Answer, Stop>
    ensures { Answers (rows.stat world.now found) world.now world.now result }
{
    let place = place_at(world, found)?;
    stat_of(world, &place)
}

/// The word for what a mount shows.
fn word_of(world: &World, mount: u32) -> MountWord
    ensures { result ≡ rows.word_of (kind_in (facts_of world.now) mount) }
{
    match world.mounts.get(mount) {
        Some(mount) => match &mount.kind {
            MountKind::Mem => MountWord::Mem,
            MountKind::Null { .. } => MountWord::Null,
            MountKind::Union { .. } => MountWord::Union,
        },
        None => MountWord::Mem,
    }
}

/// statfs(2): the mount of a file, and what it shows.
#[tactic(auto, using(plain_checks::proofs::Binding::stops_answer, plain_checks::proofs::Binding::goes_answer, plain_checks::proofs::Binding::replies))]
pub fn statfs(world: &World, found: Found) -> Result<Answer, Stop>
    ensures { Answers (rows.statfs world.now found) world.now world.now result }
{
    let place = place_at(world, found)?;
    let mount = place.mount();
    Ok(Answer::fs(mount, word_of(world, mount)))
}
