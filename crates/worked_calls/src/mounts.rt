// Worked mounts and unmounts, of each kind and by force.
ghost use Rattle.std.specs.Prelude.{◌≡◌, codes};
ghost use Rattle.vfs_tree.specs.Start.{empty_store};
ghost use Rattle.call_model.specs.Apply.{Finished, Needs, apply};
ghost use Rattle.call_model.specs.Effects.{effect};
ghost use Rattle.call_model.specs.declared.entry.Ref.TheVariants.{Fd};
ghost use Rattle.vfs_tree.specs.declared.errno.Errno.TheVariants as errno;
ghost use Rattle.call_model.specs.declared.call.Call.TheVariants as call;
ghost use Rattle.call_model.specs.declared.entry.Inner.TheVariants as inner;
ghost use Rattle.call_model.specs.declared.reply.Reply.TheVariants as reply;
ghost use Rattle.call_model.specs.declared.reply.MountWord.TheVariants as word;
ghost use Rattle.worked_calls.specs.Worlds.{with_ab, mounted, unmounted, viewed, used, left, one_dead, all_dead, gone, apart, layered};

/// A memory file system is mounted on a directory, and unmounted where nothing refers to it.
pub fn a_memory_file_system_is_mounted()
    ensures mount { apply with_ab 1 (call.MountMem (codes "/a")) ≡ Finished mounted reply.Done }
    // Its root covers the directory.
    ensures statfs { apply mounted 1 (call.Statfs (codes "/a")) ≡ Finished mounted (reply.Fs 1 word.Mem) }
    ensures umount { apply mounted 1 (call.Umount (codes "/a")) ≡ Finished unmounted reply.Done }
    // The root mount stays.
    ensures root { apply mounted 1 (call.Umount (codes "/")) ≡ Finished mounted (reply.Fail errno.EINVAL) }
{}

/// A mount that a null layer shows is busy.
pub fn a_null_layer_keeps_its_mount_busy()
    ensures mount { apply mounted 1 (call.MountNull (codes "/a") (codes "/b")) ≡ Finished viewed reply.Done }
    ensures busy { apply viewed 1 (call.Umount (codes "/a")) ≡ Finished viewed (reply.Fail errno.EBUSY) }
    // The null layer itself is not.
    ensures view { apply viewed 1 (call.Umount (codes "/b")) ≡ Finished (record mounted { next_mount = 3 }) reply.Done }
    // A directory is not shown on itself.
    ensures itself { apply with_ab 1 (call.MountNull (codes "/a") (codes "/a")) ≡ Finished with_ab (reply.Fail errno.EDEADLK) }
{}

/// A union covers its lower layer, which does not rest on the file system of the upper one.
pub fn a_union_is_mounted_on_its_lower_layer()
    ensures mount { apply (apart empty_store) 1 (call.MountUnion (codes "/u") (codes "/l")) ≡ Finished layered reply.Done }
    // Here both would rest on one.
    ensures same { apply with_ab 1 (call.MountUnion (codes "/a") (codes "/b")) ≡ Finished with_ab (reply.Fail errno.EINVAL) }
{}

/// A forced unmount detaches the mount, dooms what refers to it, the deeper reference first, and takes the mount away.
pub fn a_forced_unmount_dooms_the_deeper_reference_first()
    ensures detach { apply used 1 (call.UmountForce (codes "/a")) ≡ Needs (inner.Detach 1) }
    ensures detached { effect used 1 (inner.Detach 1) ≡ left }
    // Caller 2 refers to it through the null layer.
    ensures deeper { apply left 1 (call.UmountForce (codes "/a")) ≡ Needs (inner.Doom (Fd 2 0)) }
    ensures doomed { effect left 1 (inner.Doom (Fd 2 0)) ≡ one_dead }
    // Then caller 1's own.
    ensures next { apply one_dead 1 (call.UmountForce (codes "/a")) ≡ Needs (inner.Doom (Fd 1 0)) }
    ensures all { effect one_dead 1 (inner.Doom (Fd 1 0)) ≡ all_dead }
    ensures gone { apply all_dead 1 (call.UmountForce (codes "/a")) ≡ Finished gone reply.Done }
    // What shows it is cut off.
    ensures cut { apply gone 2 (call.Stat (codes "/b")) ≡ Finished gone (reply.Fail errno.EIO) }
{}
