ghost use Rattle.std.specs.Prelude.{List};
ghost use Rattle.std.specs.List.{AllByRecursion};
ghost use Rattle.call_model.specs.declared.entry.Entry.{Entry};
ghost use Rattle.script_text.specs.declared.script.Script.{Script};
ghost use Rattle.trace_text.specs.Bounded.{IsBoundedEntry};
ghost use Rattle.output_laws.specs.Runs.{IsRunOf};

/// A history of a script has only numbers of at most 64 bits: a law of the model, with no code. A script's callers and
/// numbers are small, and so are all numbers that calls answer and need, from the world at the start on.
pub fn legal_histories_are_bounded()
    ensures { (script : Script) (es : List Entry) → IsRunOf script es → AllByRecursion IsBoundedEntry es }
{}
