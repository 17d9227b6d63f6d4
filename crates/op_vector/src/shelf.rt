ghost use Rattle.std.specs.Prelude.{◌≡◌, ◌<◌, ◌≤◌, ◌↔◌, ◌∷◌, ◌++◌, [], length, IsNone, IfNone};
ghost use Rattle.std.specs.Option.{option_to_list};

use std::marker::Model;

/// A list of boxes with its room: the number of boxes that it began with.
///
/// Contracts see the pair of the boxes and the room.
#[derive(Drop)]
pub struct Shelf<B> {
    boxes: Vec<B>,
    room: usize,
}

impl<B> Model for Shelf<B> {
    ghost use Rattle.std.specs.Prelude.{ℕ, List, length, vec_capacity, ◌≤◌};

    ghost Value = { List B × ℕ };

    ghost view = { λ s. (s.boxes.items, s.room) };

    ghost invariant = { λ s. (length s.boxes.items ≤ s.room) × (s.room ≤ vec_capacity s.boxes) };
}

impl<B> Shelf<B> {
    /// A list of these boxes, with room for as many.
    pub fn new(boxes: Vec<B>) -> Shelf<B>
        ensures boxes { result.0 ≡ boxes.items }
        ensures room { result.1 ≡ length boxes.items }
    {
        let room = boxes.len();
        Shelf { boxes, room }
    }

    /// The boxes, the one that was given last at the end.
    pub fn as_slice(&self) -> &[B]
        ensures boxes { result.now ≡ self.now.0 }
        ensures room { length self.now.0 ≤ self.now.1 }
    {
        self.boxes.as_slice()
    }
}

impl<B: Drop> Shelf<B> {
    /// Takes the last box out. `None` comes exactly where there is none.
    pub fn take(&mut self) -> Option<B>
        ensures none { IsNone result ↔ (self.old.0 ≡ []) }
        ensures kept { IfNone result (self.new.0 ≡ self.old.0) }
        ensures taken { self.old.0 ≡ self.new.0 ++ option_to_list result }
        ensures room { self.new.1 ≡ self.old.1 }
    {
        self.boxes.pop()
    }

    /// Puts a box, for which there is room, at the end. It takes no memory.
    pub fn give(&mut self, b: B)
        requires { length self.old.0 < self.old.1 }
        ensures boxes { self.new.0 ≡ self.old.0 ++ b ∷ [] }
        ensures room { self.new.1 ≡ self.old.1 }
    {
        self.boxes.push_reserved(b);
    }
}
