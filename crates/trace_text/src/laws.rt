ghost use Rattle.std.specs.Prelude.{◌≡◌, List};
ghost use Rattle.std.specs.List.{AllByRecursion, concat};
ghost use Rattle.vfs_tree.specs.declared.world.World.{World};
ghost use Rattle.call_model.specs.declared.entry.Entry.{Entry};
ghost use Rattle.call_model.specs.declared.entry.Inner.{Inner};
ghost use Rattle.call_model.specs.declared.reply.Reply.{Reply};
ghost use Rattle.trace_text.specs.Bounded.{IsBoundedReply, IsBoundedInner, IsBoundedEntry};
ghost use Rattle.trace_text.specs.History.{history_text};
ghost use Rattle.trace_text.specs.Inner.{inner_text};
ghost use Rattle.trace_text.specs.Output.{output_text};
ghost use Rattle.trace_text.specs.Parts.{output_parts};
ghost use Rattle.trace_text.specs.Reply.{reply_text};

/// A text is that of one reply at most, whose numbers have at most 64 bits, as those of the type have: a law of the
/// texts, with no code.
pub fn same_text_same_reply()
    ensures { (r s : Reply) → IsBoundedReply r → IsBoundedReply s → reply_text r ≡ reply_text s → r ≡ s }
{}

/// A text is that of one thing at most that may happen in an inner entry, whose numbers have at most 64 bits: a law of
/// the texts, with no code.
pub fn same_text_same_inner()
    ensures { (x y : Inner) → IsBoundedInner x → IsBoundedInner y → inner_text x ≡ inner_text y → x ≡ y }
{}

/// A text is that of one history at most, whose numbers have at most 64 bits, so that texts of different histories
/// differ: a law of the texts, with no code.
pub fn same_text_same_history()
    ensures { (es fs : List Entry) → AllByRecursion IsBoundedEntry es → AllByRecursion IsBoundedEntry fs → history_text es ≡ history_text fs → es ≡ fs }
{}

/// An output is its parts, one after the other: the first line, a line for each entry, the line between, each mount with
/// its nodes, and the last line: a law of the texts, with no code.
pub fn parts_make_the_output()
    ensures { (history : List Entry) (world : World) → concat (output_parts history world) ≡ output_text history world }
{}
