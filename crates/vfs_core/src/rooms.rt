// The rooms of pending reads, by caller.
ghost use Rattle.std.specs.Prelude.{◌≡◌, ◌==◌, ◌≤◌, ℕ, false, OnOk, IfOk};
ghost use Rattle.std.specs.FinMap as map;
ghost use Rattle.plain_calls.specs.Answering.{HasRoomFor};

use call_model::Call;
use finite_maps::NumberMap;
use plain_data::Room;
use std::alloc::{AllocError, Global};

/// Room for as many bytes as a read of `n` may give: one of more than 65,536 is refused and gives none. The only fault is
/// want of memory.
fn room_of(alloc: Global, n: u32) -> Result<Room, AllocError>
    ensures enough { IfOk result (λ room. n ≤ 65536 → n ≤ room) }
    ensures most { IfOk result (λ room. (room ≤ 65536) × (room ≤ n)) }
{
    let bytes = if n > 65_536 { 0 } else { n };
    Room::new(alloc, bytes as usize)
}

/// The room that a call needs: one that reads bytes needs room for them. The only fault is want of memory.
fn room_for(alloc: Global, call: &Call) -> Result<Option<Room>, AllocError>
    ensures { IfOk result (λ room. HasRoomFor call.now room) }
{
    match call {
        Call::Read { n, .. } | Call::Pread { n, .. } => Ok(Some(room_of(alloc, *n)?)),
        _ => Ok(None),
    }
}

/// Puts a caller's room, if there is one, in the place of what it had. The only fault is want of memory.
#[tactic(auto, using(crate::proofs::RoomLaws::put_there, crate::proofs::RoomLaws::taken_there, crate::proofs::RoomLaws::put_others, crate::proofs::KernLaws::removed_other))]
fn put_room(rooms: &mut NumberMap<Room>, caller: u32, room: Option<Room>) -> Result<(), AllocError>
    ensures put { OnOk result (map.get rooms.new caller ≡ room) }
    ensures others { (other : ℕ) → (other == caller) ≡ false → map.get rooms.new other ≡ map.get rooms.old other }
{
    match room {
        Some(room) => {
            rooms.insert(caller, room)?;
        }
        None => {
            rooms.remove(caller);
        }
    }
    Ok(())
}

/// Makes the room that a caller's call needs. The only fault is want of memory.
pub fn make_room(
    alloc: Global,
    rooms: &mut NumberMap<Room>,
    caller: u32,
    call: &Call,
) -> Result<(), AllocError>
    ensures room { OnOk result (HasRoomFor call.now (map.get rooms.new caller)) }
    ensures others { (other : ℕ) → (other == caller) ≡ false → map.get rooms.new other ≡ map.get rooms.old other }
{
    let room = room_for(alloc, call)?;
    put_room(rooms, caller, room)
}

/// Takes the room of a caller's call.
#[tactic(auto, using(crate::proofs::KernLaws::removed_other))]
pub fn take_room(rooms: &mut NumberMap<Room>, caller: u32) -> Option<Room>
    ensures taken { result ≡ map.get rooms.old caller }
    ensures others { (other : ℕ) → (other == caller) ≡ false → map.get rooms.new other ≡ map.get rooms.old other }
{
    rooms.remove(caller)
}
