// Worked calls on contents and descriptors: offsets, gaps, the greatest size, and what a doom leaves.
ghost use Rattle.std.specs.Prelude.{◌≡◌, codes, pos, [], ◌∷◌};
ghost use Rattle.vfs_tree.specs.Place.{Mem};
ghost use Rattle.vfs_tree.specs.declared.node.Node.TheVariants.{File};
ghost use Rattle.call_model.specs.Apply.{Finished, Needs, apply};
ghost use Rattle.call_model.specs.Effects.{effect};
ghost use Rattle.call_model.specs.declared.entry.Ref.TheVariants.{Fd};
ghost use Rattle.vfs_tree.specs.declared.errno.Errno.TheVariants as errno;
ghost use Rattle.call_model.specs.declared.call.Call.TheVariants as call;
ghost use Rattle.call_model.specs.declared.call.Access.TheVariants as access;
ghost use Rattle.call_model.specs.declared.call.Whence.TheVariants as whence;
ghost use Rattle.call_model.specs.declared.entry.Inner.TheVariants as inner;
ghost use Rattle.call_model.specs.declared.reply.Reply.TheVariants as reply;
ghost use Rattle.worked_calls.specs.Worlds.{one_name, with_root, with_f, reads, writes, opened, flags, with_first, read_f, write_f, dead_f};

/// A read begins at the offset, and moves it.
pub fn reading_moves_the_offset()
    // The lowest descriptor is free.
    ensures open { apply with_f 1 (call.Open (codes "/f") (flags access.Read)) ≡ Finished read_f (reply.Fd 0) }
    ensures read { apply read_f 1 (call.Read 0 2) ≡ Finished (with_first with_f (record (opened (Mem 0 2) reads) { offset = 2 })) (reply.Bytes (codes "lo")) }
    // Descriptor 1 is not open.
    ensures closed { apply read_f 1 (call.Read 1 2) ≡ Finished read_f (reply.Fail errno.EBADF) }
{}

/// Bytes that are written past the end leave a gap of zeros.
pub fn a_gap_is_zeros()
    ensures { apply write_f 1 (call.Pwrite 0 5 (codes "x")) ≡ Finished (with_first (with_root (one_name (codes "f") (File (108 ∷ 111 ∷ 119 ∷ 0 ∷ 0 ∷ 120 ∷ [])))) (opened (Mem 0 2) writes)) (reply.Count 1) }
{}

/// A file has at most 1,048,576 bytes.
pub fn a_file_has_a_greatest_size()
    ensures { apply write_f 1 (call.Pwrite 0 1048576 (codes "x")) ≡ Finished write_f (reply.Fail errno.EFBIG) }
{}

/// A descriptor that is doomed answers with errors, until it is closed.
pub fn a_doomed_file_can_only_be_closed()
    ensures read { apply dead_f 1 (call.Read 0 2) ≡ Finished dead_f (reply.Fail errno.EIO) }
    ensures lseek { apply dead_f 1 (call.Lseek 0 whence.Set (pos 0)) ≡ Finished dead_f (reply.Fail errno.EBADF) }
    ensures close { apply dead_f 1 (call.Close 0) ≡ Finished with_f reply.Done }
{}

/// A revoke dooms the open files of a file, and is done where none is left.
pub fn a_revoke_dooms_the_open_file()
    ensures doom { apply read_f 2 (call.Revoke (codes "/f")) ≡ Needs (inner.Doom (Fd 1 0)) }
    ensures effect { effect read_f 2 (inner.Doom (Fd 1 0)) ≡ dead_f }
    ensures done { apply dead_f 2 (call.Revoke (codes "/f")) ≡ Finished dead_f reply.Done }
{}
