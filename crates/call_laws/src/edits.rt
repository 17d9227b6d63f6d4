// How many edits of names and mounts an entry makes.
ghost use Rattle.std.specs.Prelude.{◌≡◌, ◌≤◌, List, ◌++◌, length};
ghost use Rattle.vfs_tree.specs.Facts.{Facts};
ghost use Rattle.vfs_tree.specs.declared.world.World.{World};
ghost use Rattle.call_model.specs.Legal.{replay};
ghost use Rattle.call_model.specs.declared.entry.Entry.{Entry};
ghost use Rattle.call_model.specs.NameEdits.{Edit, edited_by, edits, edits_of};

/// How many edits of names and mounts histories make: a law of the model, with no code.
pub fn an_entry_makes_few_edits()
    // An entry makes at most four.
    ensures few { (w : World) (e : Entry) → length (edits_of w e) ≤ 4 }
    // Those of two histories, one after the other, stand one after the other.
    ensures joined { (w : World) (es fs : List Entry) → edits w (es ++ fs) ≡ edits w es ++ edits (replay w es) fs }
    // So does what they do.
    ensures done { (f : Facts) (es fs : List Edit) → edited_by f (es ++ fs) ≡ edited_by (edited_by f es) fs }
{}
