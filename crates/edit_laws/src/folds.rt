// The edits of entries tell what they do to names and mounts: inner entries, mounts, unmounts and quiet calls.
ghost use Rattle.std.specs.Prelude.{◌≡◌, ℕ, List, [], None};
ghost use Rattle.std.specs.FinMap.{get};
ghost use Rattle.vfs_tree.specs.Sound.{IsSound};
ghost use Rattle.vfs_tree.specs.Views.{facts_of};
ghost use Rattle.vfs_tree.specs.declared.errno.Errno.{Errno};
ghost use Rattle.vfs_tree.specs.declared.world.World.{World};
ghost use Rattle.call_model.specs.Apply.{Finished, apply};
ghost use Rattle.call_model.specs.Legal.{MayAnswer, after, replay};
ghost use Rattle.call_model.specs.NameEdits.{edited_by, edits, edits_of};
ghost use Rattle.call_model.specs.declared.call.Call.{Call};
ghost use Rattle.call_model.specs.declared.call.Call.TheVariants as call;
ghost use Rattle.call_model.specs.declared.entry.Entry.{Entry};
ghost use Rattle.call_model.specs.declared.entry.Entry.TheVariants as entry;
ghost use Rattle.call_model.specs.declared.entry.Inner.TheVariants.{Detach, Doom};
ghost use Rattle.call_model.specs.declared.entry.Ref.{Ref};
ghost use Rattle.call_model.specs.declared.reply.Reply.{Reply};
ghost use Rattle.call_model.specs.declared.reply.Reply.TheVariants as reply;
ghost use Rattle.call_laws.specs.Lasting.{IsLasting};
ghost use Rattle.call_laws.specs.Quiet.{IsQuiet};
ghost use Rattle.edit_laws.specs.Telling.{AllTell, Tells};

/// The edits of a history tell what it does to names and mounts, where those of each entry do: a law of the model, with no
/// code.
pub fn edits_of_entries_tell_histories()
    // Its edits, one after the other, give what walks read in the world that it leaves.
    ensures history { (w : World) (es : List Entry)
        → AllTell w es → facts_of (replay w es) ≡ edited_by (facts_of w) (edits w es) }
    // An entry that has none leaves what walks read.
    ensures none { (w : World) (e : Entry) → Tells w e → edits_of w e ≡ [] → facts_of (after w e) ≡ facts_of w }
{}

/// The edits of inner entries tell what they do to names and mounts: a law of the model, with no code.
pub fn edits_of_inner_entries_tell()
    ensures doom { (w : World) (c : ℕ) (at : Ref) → Tells w (entry.Inner c (Doom at)) }
    // A mount is detached by a caller that is leaving none.
    ensures detach { (w : World) (c m : ℕ)
        → IsSound w → IsLasting w → get w.leaving c ≡ None → Tells w (entry.Inner c (Detach m)) }
{}

/// Calls that have no edits leave what walks read: a law of the model, with no code.
pub fn calls_without_edits_tell()
    // So does a call that changes no name and no mount, makes no node and opens nothing by a path, whatever it answers,
    ensures quiet { (w : World) (c : ℕ) (call : Call) (r : Reply) → IsQuiet call → Tells w (entry.Call c call r) }
    // one that changes the current directory,
    ensures chdir { (w : World) (c : ℕ) (text : List ℕ) (r : Reply) → Tells w (entry.Call c (call.Chdir text) r) }
    // and one that fails.
    ensures failed { (w new : World) (doomers : List ℕ) (c : ℕ) (call : Call) (e : Errno)
        → MayAnswer w doomers c call (reply.Fail e) new → Tells w (entry.Call c call (reply.Fail e)) }
{}

/// The edits of an unmount that is done tell what it does to names and mounts: a law of the model, with no code.
pub fn edits_of_unmounts_tell()
    ensures plain { (w new : World) (c : ℕ) (text : List ℕ)
        → IsSound w → IsLasting w → apply w c (call.Umount text) ≡ Finished new reply.Done
        → Tells w (entry.Call c (call.Umount text) reply.Done) }
    ensures forced { (w new : World) (c : ℕ) (text : List ℕ)
        → IsSound w → IsLasting w → apply w c (call.UmountForce text) ≡ Finished new reply.Done
        → Tells w (entry.Call c (call.UmountForce text) reply.Done) }
{}

/// The edits of a null mount and of a union tell what they do to names and mounts: a law of the model, with no code.
pub fn edits_of_layered_mounts_tell()
    ensures null { (w new : World) (c : ℕ) (target text : List ℕ)
        → IsSound w → IsLasting w → apply w c (call.MountNull target text) ≡ Finished new reply.Done
        → Tells w (entry.Call c (call.MountNull target text) reply.Done) }
    ensures union { (w new : World) (c : ℕ) (upper text : List ℕ)
        → IsSound w → IsLasting w → apply w c (call.MountUnion upper text) ≡ Finished new reply.Done
        → Tells w (entry.Call c (call.MountUnion upper text) reply.Done) }
{}

/// The edits of a new memory file system tell what it does to names and mounts: a law of the model, with no code.
pub fn edits_of_memory_mounts_tell()
    ensures { (w new : World) (c : ℕ) (text : List ℕ)
        → IsSound w → IsLasting w → apply w c (call.MountMem text) ≡ Finished new reply.Done
        → Tells w (entry.Call c (call.MountMem text) reply.Done) }
{}
