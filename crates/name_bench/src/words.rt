// The words after the program's name.
ghost use Rattle.std.specs.Prelude.{◌≤◌, IfSome};

/// The most names that a directory has at once.
pub const MOST_NAMES: u32 = 100_000;

/// How much a run does.
#[derive(Clone, Copy, Debug, PartialEq, Eq)]
pub struct Size {
    /// How many names there are at once.
    pub names: u32,
    /// How many rounds there are.
    pub rounds: u32,
}

/// What the two words say: 1 to 100,000 names, and the rounds.
pub fn size_of(words: &[String]) -> Option<Size>
    ensures least { IfSome result (λ size. 1 ≤ size.names) }
    ensures most { IfSome result (λ size. size.names ≤ 100000) }
{
    let [names, rounds] = words else {
        return None;
    };
    let Ok(names) = names.as_str().parse::<u32>() else {
        return None;
    };
    let Ok(rounds) = rounds.as_str().parse::<u32>() else {
        return None;
    };
    if names < 1 || MOST_NAMES < names {
        return None;
    }
    Some(Size { names, rounds })
}
