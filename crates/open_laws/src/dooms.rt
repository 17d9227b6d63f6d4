// The deepest reference is doomed first, and what a live reference stands on outlives it.
ghost use Rattle.std.specs.Prelude.{◌≡◌, ◌∷◌, ◌++◌, ℕ, List, Some};
ghost use Rattle.std.specs.FinMap.{get};
ghost use Rattle.vfs_tree.specs.Sound.{IsSound};
ghost use Rattle.vfs_tree.specs.Start.{start_world};
ghost use Rattle.vfs_tree.specs.declared.limits.Limits.{Limits};
ghost use Rattle.vfs_tree.specs.declared.walk.Step.TheVariants.{Wants};
ghost use Rattle.vfs_tree.specs.declared.world.World.{World};
ghost use Rattle.vfs_tree.specs.Layers.{base};
ghost use Rattle.vfs_tree.specs.Place.{Seen};
ghost use Rattle.vfs_tree.specs.Views.{facts_of};
ghost use Rattle.call_model.specs.Legal.{Pending, IsLegal, replay};
ghost use Rattle.call_model.specs.Rows.{row};
ghost use Rattle.call_model.specs.declared.call.Call.{Call};
ghost use Rattle.call_model.specs.declared.entry.Entry.{Entry};
ghost use Rattle.call_model.specs.declared.entry.Entry.TheVariants as entry;
ghost use Rattle.call_model.specs.declared.entry.Inner.TheVariants.{Doom};
ghost use Rattle.call_model.specs.declared.entry.Ref.{Ref};
ghost use Rattle.call_model.specs.Refs.{first_in, place_of};
ghost use Rattle.call_model.specs.declared.call.Call.TheVariants as call;
ghost use Rattle.call_laws.specs.Lasting.{IsLasting};
ghost use Rattle.call_laws.specs.Leaving.{IsLeaver};
ghost use Rattle.open_laws.specs.Stacks.{StandsOnTop};
ghost use Rattle.open_laws.specs.Standing.{AllStand};
ghost use Rattle.open_laws.specs.Deepest.{IsDeepest, IsDeepestOn};

/// The deepest reference is doomed first: a law of the model, with no code. A place is deeper than those on which it
/// stands, so what a live reference stands on outlives it: `what_a_reference_stands_on_outlives_it`.
pub fn the_deepest_reference_is_doomed_first()
    // The first live reference in a mount or in one that stands on it is at the greatest depth of these; where several are,
    // no other comes before it by caller, descriptor and current directory.
    ensures first { (w : World) (m : ℕ) (at : Ref) → first_in w m ≡ Some at → IsDeepest w m at }
    // A forced unmount that has detached its mount dooms that one next.
    ensures doomed { (w : World) (c m : ℕ) (text : List ℕ) (at : Ref)
        → get w.leaving c ≡ Some m → IsLeaver (Some (call.UmountForce text)) → row w c (call.UmountForce text) ≡ Wants (Doom at)
        → IsDeepest w m at }
    // A revoke dooms an open file next that is the deepest, and then the first, of the live ones that rest on its node.
    ensures revoked { (w : World) (c : ℕ) (text : List ℕ) (at : Ref) (p : Seen)
        → row w c (call.Revoke text) ≡ Wants (Doom at) → place_of w at ≡ Some p
        → IsDeepestOn w (base (facts_of w) p) at }
{}

/// What a live reference stands on outlives it: a law of the model, with no code. A place is doomed only when no live
/// reference stands on it, in a forced unmount and in a revoke.
pub fn what_a_reference_stands_on_outlives_it()
    // Whatever call needs a doom in a sound world that lasts, and in which the mounts of live references stand, no live
    // reference stands on the place that it dooms.
    ensures call { (w : World) (c : ℕ) (call : Call) (at : Ref)
        → IsSound w → IsLasting w → AllStand w → row w c call ≡ Wants (Doom at) → StandsOnTop w at }
    // So it is at each doom of a legal history. From the start on there is nothing else to know.
    ensures history { (limits : Limits) (p : Pending) (es fs : List Entry) (c : ℕ) (at : Ref)
        → IsLegal p (start_world limits) (es ++ entry.Inner c (Doom at) ∷ fs)
        → StandsOnTop (replay (start_world limits) es) at }
{}
