ghost use Rattle.std.specs.Prelude.{◌≡◌, List};
ghost use Rattle.std.specs.List.{AllByRecursion};
ghost use Rattle.vfs_tree.specs.declared.world.World.{World};
ghost use Rattle.call_model.specs.declared.entry.Entry.{Entry};
ghost use Rattle.script_text.specs.declared.script.Script.{Script};
ghost use Rattle.trace_text.specs.Bounded.{IsBoundedEntry};
ghost use Rattle.trace_text.specs.Output.{output_text};
ghost use Rattle.output_laws.specs.Runs.{IsRunOf};

/// An output is that of one history at most, whose numbers have at most 64 bits, whatever trees follow it: a law of the
/// texts, with no code.
pub fn same_output_same_history()
    ensures { (es fs : List Entry) (w v : World) → AllByRecursion IsBoundedEntry es → AllByRecursion IsBoundedEntry fs
        → output_text es w ≡ output_text fs v → es ≡ fs }
{}

/// An output is that of one history of a script, whichever script that is of: a law of the texts, with no code.
pub fn outputs_have_one_history()
    ensures { (script other : Script) (es fs : List Entry) (w v : World) → IsRunOf script es → IsRunOf other fs
        → output_text es w ≡ output_text fs v → es ≡ fs }
{}
