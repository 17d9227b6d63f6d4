// The edits of calls that make, drop and move names, and of what they need, tell what they do.
ghost use Rattle.std.specs.Prelude.{◌≡◌, ℕ, List};
ghost use Rattle.vfs_tree.specs.Sound.{IsSound};
ghost use Rattle.vfs_tree.specs.declared.walk.Step.TheVariants.{Wants};
ghost use Rattle.vfs_tree.specs.declared.world.World.{World};
ghost use Rattle.call_model.specs.Apply.{Finished, apply};
ghost use Rattle.call_model.specs.Rows.{row};
ghost use Rattle.call_model.specs.declared.call.Call.{Call};
ghost use Rattle.call_model.specs.declared.call.Call.TheVariants as call;
ghost use Rattle.call_model.specs.declared.call.Flags.{Flags};
ghost use Rattle.call_model.specs.declared.entry.Entry.TheVariants as entry;
ghost use Rattle.call_model.specs.declared.entry.Inner.TheVariants.{CopyUp, Shadow};
ghost use Rattle.call_model.specs.declared.reply.Reply.TheVariants as reply;
ghost use Rattle.call_laws.specs.Lasting.{IsLasting};
ghost use Rattle.edit_laws.specs.Telling.{Tells};

/// The edits of calls that make nodes tell what they do to names and nodes: a law of the model, with no code.
pub fn edits_of_made_nodes_tell()
    ensures mkdir { (w new : World) (c : ℕ) (text : List ℕ)
        → IsSound w → IsLasting w → apply w c (call.Mkdir text) ≡ Finished new reply.Done
        → Tells w (entry.Call c (call.Mkdir text) reply.Done) }
    ensures symlink { (w new : World) (c : ℕ) (target text : List ℕ)
        → IsSound w → IsLasting w → apply w c (call.Symlink target text) ≡ Finished new reply.Done
        → Tells w (entry.Call c (call.Symlink target text) reply.Done) }
    // An open has them where it makes a file; where it opens what is there it has none.
    ensures open_file { (w new : World) (c d : ℕ) (text : List ℕ) (f : Flags)
        → IsSound w → IsLasting w → apply w c (call.Open text f) ≡ Finished new (reply.Fd d)
        → Tells w (entry.Call c (call.Open text f) (reply.Fd d)) }
{}

/// The edits of calls that drop names tell what they do to names and nodes: a law of the model, with no code.
pub fn edits_of_dropped_names_tell()
    ensures unlink { (w new : World) (c : ℕ) (text : List ℕ)
        → IsSound w → IsLasting w → apply w c (call.Unlink text) ≡ Finished new reply.Done
        → Tells w (entry.Call c (call.Unlink text) reply.Done) }
    ensures rmdir { (w new : World) (c : ℕ) (text : List ℕ)
        → IsSound w → IsLasting w → apply w c (call.Rmdir text) ≡ Finished new reply.Done
        → Tells w (entry.Call c (call.Rmdir text) reply.Done) }
    ensures undelete { (w new : World) (c : ℕ) (text : List ℕ)
        → IsSound w → IsLasting w → apply w c (call.Undelete text) ≡ Finished new reply.Done
        → Tells w (entry.Call c (call.Undelete text) reply.Done) }
{}

/// The edits of calls that move and link names tell what they do to names and nodes: a law of the model, with no code.
pub fn edits_of_moved_names_tell()
    ensures rename { (w new : World) (c : ℕ) (from to : List ℕ)
        → IsSound w → IsLasting w → apply w c (call.Rename from to) ≡ Finished new reply.Done
        → Tells w (entry.Call c (call.Rename from to) reply.Done) }
    ensures link { (w new : World) (c : ℕ) (from to : List ℕ)
        → IsSound w → IsLasting w → apply w c (call.Link from to) ≡ Finished new reply.Done
        → Tells w (entry.Call c (call.Link from to) reply.Done) }
{}

/// The edits of the shadow directories and copies that calls need tell what they do: a law of the model, with no code.
pub fn edits_of_needed_entries_tell()
    ensures shadow { (w : World) (c m u : ℕ) (n : List ℕ) (call : Call)
        → IsSound w → IsLasting w → row w c call ≡ Wants (Shadow m u n) → Tells w (entry.Inner c (Shadow m u n)) }
    ensures copy_up { (w : World) (c m u : ℕ) (n : List ℕ) (call : Call)
        → IsSound w → IsLasting w → row w c call ≡ Wants (CopyUp m u n) → Tells w (entry.Inner c (CopyUp m u n)) }
{}
