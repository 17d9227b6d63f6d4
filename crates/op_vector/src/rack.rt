ghost use Rattle.std.specs.Prelude.{◌≡◌, ◌<◌, ◌≤◌, ◌↔◌, ◌∷◌, ◌++◌, [], length, IsTrue, IsNone, IfSome, IfNone};
ghost use Rattle.std.specs.Option.{option_to_list};
ghost use Rattle.op_vector.specs.Rack.{boxes_of, room_of, with_boxes, AreOf, IsByKind, IsProper, IsProperBox};
ghost use Rattle.op_vector.specs.declared.data.VKind.{VKind};

use crate::boxed::BoxedVop;
use crate::data::VKind;
use crate::shelf::Shelf;
use crate::vop::Vop;

/// The boxes that no vnode has, in four lists by their kinds. A list has room for as many boxes as it began with.
#[derive(Drop)]
pub struct RackOf<B> {
    mem: Shelf<B>,
    null: Shelf<B>,
    union_boxes: Shelf<B>,
    dead: Shelf<B>,
}

/// The rack of boxes of any file systems.
pub type Rack = RackOf<BoxedVop>;

impl<B> RackOf<B> {
    /// The rack of these four lists.
    pub fn new(mem: Vec<B>, null: Vec<B>, union_boxes: Vec<B>, dead: Vec<B>) -> RackOf<B>
        ensures mem { boxes_of VKind.Mem result ≡ mem.items }
        ensures null { boxes_of VKind.Null result ≡ null.items }
        ensures unions { boxes_of VKind.Union result ≡ union_boxes.items }
        ensures dead { boxes_of VKind.Dead result ≡ dead.items }
        ensures room { (kind : VKind) → room_of kind result ≡ length (boxes_of kind result) }
    {
        RackOf {
            mem: Shelf::new(mem),
            null: Shelf::new(null),
            union_boxes: Shelf::new(union_boxes),
            dead: Shelf::new(dead),
        }
    }

    /// The boxes of that kind's list, which has room for them.
    pub fn boxes(&self, kind: VKind) -> &[B]
        ensures boxes { result.now ≡ boxes_of kind self.now }
        ensures room { length (boxes_of kind self.now) ≤ room_of kind self.now }
    {
        match kind {
            VKind::Mem => self.mem.as_slice(),
            VKind::Null => self.null.as_slice(),
            VKind::Union => self.union_boxes.as_slice(),
            VKind::Dead => self.dead.as_slice(),
        }
    }
}

impl<B: Vop> RackOf<B> {
    /// Takes a box out of that kind's list. `None` comes exactly where the list is empty.
    pub fn take(&mut self, kind: VKind) -> Option<B>
        ensures none { IsNone result ↔ (boxes_of kind self.old ≡ []) }
        ensures kept { IfNone result (self.new ≡ self.old) }
        ensures taken { boxes_of kind self.old ≡ boxes_of kind self.new ++ option_to_list result }
        ensures others { self.new ≡ with_boxes kind (boxes_of kind self.new) self.old }

        // What is said of all boxes is said of this one and of the others.
        ensures by_kind { IsByKind B.vkind self.old → IsByKind B.vkind self.new × IfSome result (λ b. B.vkind b ≡ kind) }
        ensures proper { IsProper B.vkind B.routes self.old → IsProper B.vkind B.routes self.new × IfSome result (IsProperBox B.vkind B.routes kind) }
    {
        match kind {
            VKind::Mem => self.mem.take(),
            VKind::Null => self.null.take(),
            VKind::Union => self.union_boxes.take(),
            VKind::Dead => self.dead.take(),
        }
    }

    /// Puts a box into the list of its kind, which has room. It takes no memory.
    pub fn give(&mut self, b: B)
        requires { length (boxes_of (B.vkind b) self.old) < room_of (B.vkind b) self.old }
        ensures given { self.new ≡ with_boxes (B.vkind b) (boxes_of (B.vkind b) self.old ++ b ∷ []) self.old }
        ensures by_kind { IsByKind B.vkind self.old → IsByKind B.vkind self.new }
        ensures proper { IsProper B.vkind B.routes self.old → IsProperBox B.vkind B.routes (B.vkind b) b → IsProper B.vkind B.routes self.new }
    {
        match b.kind() {
            VKind::Mem => self.mem.give(b),
            VKind::Null => self.null.give(b),
            VKind::Union => self.union_boxes.give(b),
            VKind::Dead => self.dead.give(b),
        }
    }

    /// Whether each box stands in the list of its kind.
    pub fn is_by_kind(&self) -> bool
        ensures { IsTrue result ↔ IsByKind B.vkind self.now }
    {
        are_of(VKind::Mem, self.mem.as_slice())
            && are_of(VKind::Null, self.null.as_slice())
            && are_of(VKind::Union, self.union_boxes.as_slice())
            && are_of(VKind::Dead, self.dead.as_slice())
    }
}

/// Whether all boxes are of this kind.
fn are_of<B: Vop>(kind: VKind, boxes: &[B]) -> bool
    ensures { IsTrue result ↔ AreOf B.vkind kind boxes.now }
{
    boxes.iter().all(|b| b.kind() == kind)
}
