// What unmounts take away: without force nothing that is in use, by force no live reference.
ghost use Rattle.std.specs.Prelude.{◌≡◌, ◌≢◌, ℕ, true, List, Some, IsSome};
ghost use Rattle.std.specs.FinMap.{get};
ghost use Rattle.vfs_tree.specs.Mounts.{has_references};
ghost use Rattle.vfs_tree.specs.Sound.{IsSound};
ghost use Rattle.vfs_tree.specs.declared.walk.Found.TheVariants as found;
ghost use Rattle.vfs_tree.specs.declared.world.World.{World};
ghost use Rattle.call_model.specs.Apply.{Finished, apply};
ghost use Rattle.call_model.specs.Legal.{after};
ghost use Rattle.call_model.specs.Rows.{first_found};
ghost use Rattle.call_model.specs.declared.call.Call.TheVariants as call;
ghost use Rattle.call_model.specs.declared.entry.Entry.TheVariants as entry;
ghost use Rattle.call_model.specs.declared.reply.Reply.{Reply};
ghost use Rattle.call_model.specs.declared.reply.Reply.TheVariants as reply;
ghost use Rattle.call_laws.specs.Lasting.{IsLasting};
ghost use Rattle.model_laws.specs.Unmounted.{AllStay, LayersStay, NoneIn};

/// An unmount without force leaves whole what is in use: a law of the model, with no code.
pub fn an_unmount_leaves_places_whole()
    // It changes mounts alone: what is open, the current directories and the nodes are as they were.
    ensures alone { (w : World) (c : ℕ) (text : List ℕ) (r : Reply)
        → let new = after w (entry.Call c (call.Umount text) r) in new ≡ record w { mounts = new.mounts } }
    // Each mount but the one that its path stands for is as it was,
    ensures others { (w : World) (c n : ℕ) (text : List ℕ) (r : Reply)
        → first_found w c (call.Umount text) ≢ found.Mount n
        → get (after w (entry.Call c (call.Umount text) r)).mounts n ≡ get w.mounts n }
    // and so is each to which something refers: a live open file or current directory, a mount that covers a place of
    // it, or one that has a layer in it.
    ensures referred { (w : World) (c n : ℕ) (text : List ℕ) (r : Reply) → has_references w n ≡ true
        → get (after w (entry.Call c (call.Umount text) r)).mounts n ≡ get w.mounts n }
    // What is open and isn't dead is there still, its place is sound, and the same node stands there; so it is with
    // current directories, and with each layer and covered directory of a mount that isn't cut.
    ensures whole { (w : World) (c : ℕ) (text : List ℕ) (r : Reply)
        → IsSound w → IsLasting w → AllStay w (after w (entry.Call c (call.Umount text) r)) }
    // A layer of any mount, also of a cut one, stays whole where it was there; so does the directory that the mount
    // covers, unless a caller is leaving it.
    ensures layers { (w : World) (c : ℕ) (text : List ℕ) (r : Reply)
        → LayersStay w (after w (entry.Call c (call.Umount text) r)) }
{}

/// A forced unmount leaves no reference in what it takes away: a law of the model, with no code.
pub fn a_forced_unmount_leaves_no_reference()
    // It ends with the mount that its caller is leaving.
    ensures leaver { (w new : World) (c : ℕ) (text : List ℕ)
        → apply w c (call.UmountForce text) ≡ Finished new reply.Done → IsSome (get w.leaving c) }
    // No live reference is left in the mount, or in one that stands on it.
    ensures none { (w new : World) (c m : ℕ) (text : List ℕ)
        → apply w c (call.UmountForce text) ≡ Finished new reply.Done → get w.leaving c ≡ Some m → NoneIn w new m }
{}
