ghost use Rattle.std.specs.Prelude.{◌≡◌, ℕ, List};
ghost use Rattle.script_text.specs.declared.script.Script.{Script};
ghost use Rattle.script_text.specs.Script.{script_text, whole_text, IsTextOf, HasText};
ghost use Rattle.script_text.specs.BadLine.{IsBadLine};

/// A law of texts: each text is the text of one script only, and bytes have one bad line at most.
pub fn texts_tell_scripts_apart()
    // What is printed is a text of the script.
    ensures printed { (script : Script) → IsTextOf script (script_text script) }
    // So is the text in which default limits are spelled out.
    ensures spelled_out { (script : Script) → IsTextOf script (whole_text script) }
    ensures apart { (script other : Script) (bytes : List ℕ) → HasText script → HasText other → IsTextOf script bytes → IsTextOf other bytes → script ≡ other }
    ensures one_bad_line { (bytes : List ℕ) (m n : ℕ) → IsBadLine bytes m → IsBadLine bytes n → m ≡ n }
{}
