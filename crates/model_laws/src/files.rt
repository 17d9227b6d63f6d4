// Each file is one file, whatever names and views show it.
ghost use Rattle.std.specs.Prelude.{◌≡◌, ℕ, List, Some};
ghost use Rattle.vfs_tree.specs.Child.{child_of};
ghost use Rattle.vfs_tree.specs.Layers.{base};
ghost use Rattle.vfs_tree.specs.Place.{Seen};
ghost use Rattle.vfs_tree.specs.Views.{facts_of};
ghost use Rattle.vfs_tree.specs.declared.node.NameEntry.TheVariants.{Ino};
ghost use Rattle.vfs_tree.specs.declared.walk.Child.TheVariants as child;
ghost use Rattle.vfs_tree.specs.declared.world.World.{World};
ghost use Rattle.call_model.specs.DataRows.{bytes_of};
ghost use Rattle.call_model.specs.NameEdits.{entry_of_dir};

/// Each file is one file, whatever its names are: a law of the model, with no code.
pub fn each_file_is_one_file()
    // What rests on one node has the same bytes, through whatever mounts it is seen.
    ensures node { (w : World) (p q : Seen) → base (facts_of w) p ≡ base (facts_of w) q → bytes_of w p ≡ bytes_of w q }
    // So have two names, in directories of one store, that give one inode.
    ensures names { (w : World) (d e p q : Seen) (a b : List ℕ) (i : ℕ)
        → (base (facts_of w) d).store ≡ (base (facts_of w) e).store
        → entry_of_dir w d a ≡ Some (Ino i) → entry_of_dir w e b ≡ Some (Ino i)
        → child_of (facts_of w) d a ≡ child.At p → child_of (facts_of w) e b ≡ child.At q → bytes_of w p ≡ bytes_of w q }
{}
