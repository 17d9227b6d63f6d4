ghost use Rattle.std.specs.Prelude.{◌≡◌};
ghost use Rattle.call_model.specs.MountRows as rows;
ghost use Rattle.call_model.specs.Refs as refs;
ghost use Rattle.plain_checks.specs.Coming.{Answers};

use crate::first::first_open;
use call_model::{Inner, Ref};
use plain_checks::{Answer, Stop, place_at};
use vfs_paths::{base, is_file};
use vfs_tree::{Errno, Found, Place, World};

/// The first live open file that rests on the same node as a place.
fn first_of(world: &World, place: &Place) -> Option<Ref>
    ensures { result ≡ refs.first_open world.now place.now }
{
    first_open(world, base(world, place))
}

/// revoke(2): the first live open file of the file has to be doomed; where there is none, the call is done. EINVAL where it
/// is no regular file.
#[tactic(auto, using(plain_checks::proofs::Binding::stops_answer, plain_checks::proofs::Binding::goes_answer))]
pub fn revoke(world: &World, found: Found) -> Result<Answer, Stop>
    ensures { Answers (rows.revoke world.now found) world.now world.now result }
{
    let place = place_at(world, found)?;
    if !is_file(world, &place) {
        return Err(Stop::Refused {
            errno: Errno::EINVAL,
        });
    }
    match first_of(world, &place) {
        Some(at) => Err(Stop::Needs {
            what: Inner::Doom { at },
        }),
        None => Ok(Answer::done()),
    }
}
