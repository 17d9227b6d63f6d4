// Worked calls in a union: whiteouts, shadow directories, copies and opaque directories.
ghost use Rattle.std.specs.Prelude.{◌≡◌, codes};
ghost use Rattle.call_model.specs.Apply.{Finished, Needs, apply};
ghost use Rattle.call_model.specs.Effects.{effect};
ghost use Rattle.vfs_tree.specs.declared.errno.Errno.TheVariants as errno;
ghost use Rattle.vfs_tree.specs.declared.node.Kind.TheVariants as node_kind;
ghost use Rattle.call_model.specs.declared.call.Call.TheVariants as call;
ghost use Rattle.call_model.specs.declared.call.Access.TheVariants as access;
ghost use Rattle.call_model.specs.declared.entry.Inner.TheVariants as inner;
ghost use Rattle.call_model.specs.declared.reply.Reply.TheVariants as reply;
ghost use Rattle.worked_calls.specs.Worlds.{flags, layered, hidden, shadowed, emptied, removed, remade, read_low, copied, shared};

/// A union shows what its lower layer has, until a whiteout hides it.
pub fn a_whiteout_hides_the_lower_name()
    ensures shown { apply layered 1 (call.Stat (codes "/l/f")) ≡ Finished layered (reply.Stat node_kind.File 3) }
    // The name is removed: the upper layer gets a whiteout, the lower one stays as it is.
    ensures unlink { apply layered 1 (call.Unlink (codes "/l/f")) ≡ Finished hidden reply.Done }
    ensures absent { apply hidden 1 (call.Stat (codes "/l/f")) ≡ Finished hidden (reply.Fail errno.ENOENT) }
    // The whiteout is removed, and all is as it was.
    ensures undelete { apply hidden 1 (call.Undelete (codes "/l/f")) ≡ Finished layered reply.Done }
{}

/// A directory of the lower layer alone gets a shadow directory in the upper layer before a walk goes on in it.
pub fn a_directory_of_the_lower_layer_needs_a_shadow()
    ensures needs { apply layered 1 (call.Stat (codes "/l/d")) ≡ Needs (inner.Shadow 2 1 (codes "d")) }
    ensures effect { effect layered 1 (inner.Shadow 2 1 (codes "d")) ≡ shadowed }
    ensures found { apply shadowed 1 (call.Stat (codes "/l/d")) ≡ Finished shadowed (reply.Stat node_kind.Dir 0) }
    // The shadow shows what the lower directory has.
    ensures below { apply shadowed 1 (call.Stat (codes "/l/d/x")) ≡ Finished shadowed (reply.Stat node_kind.File 1) }
{}

/// A file of the lower layer is copied to the upper one for its first writer, and its readers turn to the copy.
pub fn a_writer_copies_the_file_up()
    // A reader needs no copy.
    ensures reader { apply layered 1 (call.Open (codes "/l/f") (flags access.Read)) ≡ Finished read_low (reply.Fd 0) }
    // A writer does.
    ensures writer { apply read_low 2 (call.Open (codes "/l/f") (flags access.Write)) ≡ Needs (inner.CopyUp 2 1 (codes "f")) }
    // The older open file stands on the copy from then on.
    ensures effect { effect read_low 2 (inner.CopyUp 2 1 (codes "f")) ≡ copied }
    ensures written { apply copied 2 (call.Open (codes "/l/f") (flags access.Write)) ≡ Finished shared (reply.Fd 0) }
{}

/// A directory of a union that is removed and made again shows nothing of the lower layer.
pub fn a_directory_that_is_made_again_is_opaque()
    // It is not removed while it shows a name, whichever layer has it.
    ensures full { apply shadowed 1 (call.Rmdir (codes "/l/d")) ≡ Finished shadowed (reply.Fail errno.ENOTEMPTY) }
    ensures unlink { apply shadowed 1 (call.Unlink (codes "/l/d/x")) ≡ Finished emptied reply.Done }
    ensures rmdir { apply emptied 1 (call.Rmdir (codes "/l/d")) ≡ Finished removed reply.Done }
    // Over the whiteout it is made opaque.
    ensures mkdir { apply removed 1 (call.Mkdir (codes "/l/d")) ≡ Finished remade reply.Done }
    ensures absent { apply remade 1 (call.Stat (codes "/l/d/x")) ≡ Finished remade (reply.Fail errno.ENOENT) }
{}
