// Worked calls on names: what is made once, absent, moved, followed and linked.
ghost use Rattle.std.specs.Prelude.{◌≡◌, codes};
ghost use Rattle.call_model.specs.Apply.{Finished, apply};
ghost use Rattle.vfs_tree.specs.declared.errno.Errno.TheVariants as errno;
ghost use Rattle.vfs_tree.specs.declared.node.Kind.TheVariants as node_kind;
ghost use Rattle.call_model.specs.declared.call.Call.TheVariants as call;
ghost use Rattle.call_model.specs.declared.reply.Reply.TheVariants as reply;
ghost use Rattle.worked_calls.specs.Worlds.{start, with_a, with_f, with_fg, with_z};

/// A directory is made where nothing stands, and only once.
pub fn a_directory_is_made_once()
    // At the start nothing stands at its name.
    ensures made { apply start 1 (call.Mkdir (codes "/a")) ≡ Finished with_a reply.Done }
    // Then it does.
    ensures again { apply with_a 1 (call.Mkdir (codes "/a")) ≡ Finished with_a (reply.Fail errno.EEXIST) }
{}

/// What is missing has no kind and size.
pub fn a_missing_name_is_absent()
    ensures { apply start 1 (call.Stat (codes "/a")) ≡ Finished start (reply.Fail errno.ENOENT) }
{}

/// A directory is not renamed to a name in itself.
pub fn a_directory_does_not_go_below_itself()
    ensures { apply with_a 1 (call.Rename (codes "/a") (codes "/a/b")) ≡ Finished with_a (reply.Fail errno.EINVAL) }
{}

/// A link to itself leads nowhere: the 33rd link of a walk is one too many.
pub fn a_link_to_itself_is_followed_no_further()
    ensures stat { apply with_z 1 (call.Stat (codes "/z")) ≡ Finished with_z (reply.Fail errno.ELOOP) }
    // The link itself is there.
    ensures lstat { apply with_z 1 (call.Lstat (codes "/z")) ≡ Finished with_z (reply.Stat node_kind.Link 2) }
{}

/// A directory has one name, and a file may have more.
pub fn a_directory_has_no_second_name()
    ensures directory { apply with_a 1 (call.Link (codes "/a") (codes "/b")) ≡ Finished with_a (reply.Fail errno.EPERM) }
    ensures file { apply with_f 1 (call.Link (codes "/f") (codes "/g")) ≡ Finished with_fg reply.Done }
{}
