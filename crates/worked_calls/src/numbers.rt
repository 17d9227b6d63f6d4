// Worked calls where no inode number or mount number is left: nothing is made or mounted.
ghost use Rattle.std.specs.Prelude.{◌≡◌, codes};
ghost use Rattle.call_model.specs.Apply.{Finished, apply};
ghost use Rattle.vfs_tree.specs.declared.errno.Errno.TheVariants as errno;
ghost use Rattle.call_model.specs.declared.call.Access.TheVariants as access;
ghost use Rattle.call_model.specs.declared.call.Call.TheVariants as call;
ghost use Rattle.call_model.specs.declared.reply.Reply.TheVariants as reply;
ghost use Rattle.worked_calls.specs.Worlds.{flags, making, used_up, all_mounted, layered_full};

/// A store with no inode number left makes no node.
pub fn no_node_without_a_number()
    ensures mkdir { apply used_up 1 (call.Mkdir (codes "/a")) ≡ Finished used_up (reply.Fail errno.ENOSPC) }
    ensures symlink { apply used_up 1 (call.Symlink (codes "t") (codes "/a")) ≡ Finished used_up (reply.Fail errno.ENOSPC) }
    ensures open { apply used_up 1 (call.Open (codes "/a") (making access.Write)) ≡ Finished used_up (reply.Fail errno.ENOSPC) }
    // What is refused for another cause is refused for that.
    ensures root { apply used_up 1 (call.Mkdir (codes "/")) ≡ Finished used_up (reply.Fail errno.EEXIST) }
{}

/// Nothing is mounted where no mount number is left.
pub fn no_mount_without_a_number()
    ensures { apply all_mounted 1 (call.MountMem (codes "/a")) ≡ Finished all_mounted (reply.Fail errno.ENOSPC) }
{}

/// An upper layer with no inode number left gets no shadow directory and no copy.
pub fn nothing_is_made_above_without_a_number()
    ensures shadow { apply layered_full 1 (call.Stat (codes "/l/d")) ≡ Finished layered_full (reply.Fail errno.ENOSPC) }
    ensures copy { apply layered_full 1 (call.Open (codes "/l/f") (flags access.Write)) ≡ Finished layered_full (reply.Fail errno.ENOSPC) }
{}
