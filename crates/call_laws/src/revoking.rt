// A revoke: whose walk finds a file, which open file it dooms next, and that its walk stays the same.
ghost use Rattle.std.specs.Prelude.{◌≡◌, ℕ, List, Some};
ghost use Rattle.vfs_tree.specs.Layers.{base};
ghost use Rattle.vfs_tree.specs.Place.{Seen};
ghost use Rattle.vfs_tree.specs.Views.{facts_of};
ghost use Rattle.vfs_tree.specs.declared.walk.NodeId.{NodeId};
ghost use Rattle.vfs_tree.specs.declared.walk.Step.TheVariants.{Wants};
ghost use Rattle.vfs_tree.specs.declared.world.World.{World};
ghost use Rattle.call_model.specs.Effects.{doomed};
ghost use Rattle.call_model.specs.MountRows.{revoke_next};
ghost use Rattle.call_model.specs.Refs.{place_of};
ghost use Rattle.call_model.specs.Rows.{row};
ghost use Rattle.call_model.specs.declared.call.Call.TheVariants as call;
ghost use Rattle.call_model.specs.declared.entry.Inner.TheVariants.{Doom};
ghost use Rattle.call_model.specs.declared.entry.Ref.{Ref};
ghost use Rattle.call_laws.specs.Fitting.{IsLive};
ghost use Rattle.call_laws.specs.Revoking.{IsRevoking, first_open_on};

/// What a revoke comes to whose walk finds a regular file: a law of the model, with no code.
pub fn a_revoke_dooms_the_first_open_file()
    // It dooms the first live open file that rests on the node, and is done where none is left.
    ensures row { (w : World) (c : ℕ) (text : List ℕ) (node : NodeId)
        → IsRevoking w c text node → row w c (call.Revoke text) ≡ revoke_next w (first_open_on w node) }
{}

/// A revoke that dooms is one whose walk found a regular file: a law of the model, with no code.
pub fn a_revoke_that_dooms_has_found_a_file()
    // The file rests on the node of what is doomed.
    ensures found { (w : World) (c : ℕ) (text : List ℕ) (at : Ref) (p : Seen)
        → row w c (call.Revoke text) ≡ Wants (Doom at) → place_of w at ≡ Some p
        → IsRevoking w c text (base (facts_of w) p) }
{}

/// What a revoke dooms leaves its walk: a law of the model, with no code. So the walk need not be done again.
pub fn a_doom_leaves_the_walk_of_a_revoke()
    // After a doom of what rests on the node the walk finds a file that rests on it as before.
    ensures started { (w : World) (c : ℕ) (text : List ℕ) (node : NodeId) (at : Ref) (p : Seen)
        → IsRevoking w c text node → place_of w at ≡ Some p → base (facts_of w) p ≡ node
        → IsRevoking (doomed w at) c text node }
    // So it does after a doom of the first live open file that rests on the node.
    ensures next { (w : World) (c : ℕ) (text : List ℕ) (node : NodeId) (at : Ref) (p : Seen)
        → IsRevoking w c text node → first_open_on w node ≡ Some at → place_of w at ≡ Some p
        → IsRevoking (doomed w at) c text node }
{}

/// The first live open file that rests on a node is one: a law of the model, with no code.
pub fn the_first_open_file_is_there()
    // It is there and rests on the node.
    ensures there { (w : World) (node : NodeId) (at : Ref)
        → first_open_on w node ≡ Some at → (p : Seen) × (place_of w at ≡ Some p) × (base (facts_of w) p ≡ node) }
    // It isn't dead.
    ensures live { (w : World) (node : NodeId) (at : Ref) → first_open_on w node ≡ Some at → IsLive w at }
{}
