// A null mount shows its layer, and an edit through it is the layer's.
ghost use Rattle.std.specs.Prelude.{◌≡◌, ℕ, List, Option, Some, false, option_map};
ghost use Rattle.vfs_tree.specs.Layers.{is_cut, kind_in, root_of};
ghost use Rattle.vfs_tree.specs.Place.{Null, Seen, mount_of};
ghost use Rattle.vfs_tree.specs.Shown.{shown};
ghost use Rattle.vfs_tree.specs.Sound.{IsSound};
ghost use Rattle.vfs_tree.specs.Views.{facts_of};
ghost use Rattle.vfs_tree.specs.declared.mount.MountKind.TheVariants as kind;
ghost use Rattle.vfs_tree.specs.declared.node.Node.{Node};
ghost use Rattle.vfs_tree.specs.declared.node.Store.{Store};
ghost use Rattle.vfs_tree.specs.declared.walk.Found.TheVariants as found;
ghost use Rattle.vfs_tree.specs.declared.world.World.{World};
ghost use Rattle.call_model.specs.Checks.{drop_at, edit_at, make_at, node_of};
ghost use Rattle.call_model.specs.DataRows.{resize_at};
ghost use Rattle.call_model.specs.NameRows.{link, mkdir, renamed_at, undelete};
ghost use Rattle.call_model.specs.declared.target.Target.{Target};
ghost use Rattle.call_laws.specs.Lasting.{IsLasting, IsOver, IsUncut};

/// The tree that a null mount shows is that of its layer: a law of the model, with no code.
pub fn a_null_mount_shows_its_layer()
    // At its root, along any names, stand the kinds, bytes and targets of the layer.
    ensures root { (w : World) (m : ℕ) (layer : Seen) (ns : List (List ℕ))
        → IsSound w → IsLasting w → kind_in (facts_of w) m ≡ Some (kind.Null layer) → is_cut (facts_of w) m ≡ false
        → shown w (root_of (facts_of w) m) ns ≡ shown w layer ns }
    // At a place in it stand those of the place that is seen through it.
    ensures place { (w : World) (m : ℕ) (p : Seen) (ns : List (List ℕ))
        → IsSound w → IsLasting w → IsUncut (facts_of w) (Null m p) → IsOver (facts_of w) (Null m p)
        → shown w (Null m p) ns ≡ shown w p ns }
{}

/// An edit of a file or of names through a null mount is the edit of its layer: a law of the model, with no code.
pub fn an_edit_through_a_null_mount_is_that_of_its_layer()
    // A place in it stands for the node that the place stands for which is seen through it.
    ensures node { (w : World) (m : ℕ) (p : Seen) → node_of w (Null m p) ≡ node_of w p }
    // So an edit of that node is one edit, whatever it is.
    ensures edit { (w : World) (m : ℕ) (p : Seen) (edit : Store → ℕ → Store) → edit_at w (Null m p) edit ≡ edit_at w p edit }
    // A node is made at a name, or refused, as it is in the layer.
    ensures made { (w : World) (m : ℕ) (d : Seen) (n : List ℕ) (node : Node) → make_at w (Null m d) n node ≡ make_at w d n node }
    // A directory is made at a name, or refused, as it is there: below the same one, and opaque over a whiteout.
    ensures directory { (w : World) (m : ℕ) (d : Seen) (n : List ℕ) (child : Option Seen)
        → mkdir w (found.In (Null m d) n (option_map (Null m) child)) ≡ mkdir w (found.In d n child) }
    // A file gets another name, or is refused it, as it does there, where the two places there lie in one mount.
    ensures linked { (w : World) (m : ℕ) (p d : Seen) (n : List ℕ) (child : Option Seen) → mount_of p ≡ mount_of d
        → link w (found.At (Null m p)) (found.In (Null m d) n (option_map (Null m) child))
        ≡ link w (found.At p) (found.In d n child) }
    // A whiteout stands at a name where one stands there, and goes as it does there.
    ensures cleared { (w : World) (m : ℕ) (d : Seen) (n : List ℕ) (child : Option Seen)
        → undelete w (found.In (Null m d) n (option_map (Null m) child)) ≡ undelete w (found.In d n child) }
    // A name is dropped, with a whiteout or without one, as it is there.
    ensures dropped { (w : World) (m : ℕ) (d : Seen) (n : List ℕ) → drop_at w (Null m d) n ≡ drop_at w d n }
    // A name is moved from one directory to another as it is there.
    ensures renamed { (w : World) (m : ℕ) (from to : Seen) (n new : List ℕ) (child : Option Seen)
        → renamed_at w (Null m from) n (record { dir = Null m to; name = new; child = child })
        ≡ renamed_at w from n (record { dir = to; name = new; child = child }) }
    // A file gets a length as it does there.
    ensures resized { (w : World) (m : ℕ) (p : Seen) (len : ℕ) → resize_at w (Null m p) len ≡ resize_at w p len }
{}
