// The words after the program's name.
ghost use Rattle.std.specs.Prelude.{◌≡◌, ◌<◌, ◌≤◌, ◌^◌, ℕ, ◌∷◌, [], map, string_bytes, IfSome, IfNone, decimal};
ghost use Rattle.vfs_cli.specs.Words.{seed_at, few_calls, making, command_of, serial_command_of, HasFew};

use itoa::Buffer;

fn seed_of_text(text: &str) -> Option<u64>
    ensures found { IfSome result (λ n. decimal n ≡ text.now) }
    ensures none { IfNone result ((n : ℕ) → n < 2 ^ 64 → decimal n ≡ text.now → ⊥) }
{
    match text.parse::<u64>() {
        Ok(number) => {
            let mut buffer = Buffer::new();
            if buffer.format(number) == text {
                Some(number)
            } else {
                None
            }
        }
        Err(_) => None,
    }
}

fn seed_in(word: &[u8]) -> Option<u64>
    ensures small { IfSome result (λ n. n < 2 ^ 64) }
    ensures found { IfSome result (λ n. decimal n ≡ word.now) }
    ensures none { IfNone result ((n : ℕ) → n < 2 ^ 64 → decimal n ≡ word.now → ⊥) }
{
    match str::from_utf8(word) {
        Ok(text) => seed_of_text(text),
        Err(_) => None,
    }
}

/// The number of 64 bits that the word spells, without a sign or leading zeros.
pub fn seed_of(word: &[u8]) -> Option<u64>
    ensures { result ≡ seed_at word.now }
{
    seed_in(word)
}

/// How many calls a script of the generator has, where the word spells a number of 8 to 4,096.
fn calls_of(word: &[u8]) -> Option<u32>
    ensures calls { result ≡ few_calls (seed_at word.now) }
    ensures few { IfSome result (λ calls. (8 ≤ calls) × (calls ≤ 4096)) }
{
    match seed_of(word) {
        Some(number) => {
            if number >= 8 && number <= 4096 {
                Some(number as u32)
            } else {
                None
            }
        }
        None => None,
    }
}

/// How the callers of a script take turns.
#[derive(Clone, Copy, Debug, PartialEq, Eq)]
pub enum Turns {
    /// Each caller is on a thread of its own, and turns come as the threads do.
    Together,
    /// Each turn falls on a caller by the seed.
    Scattered {
        /// The seed.
        seed: u64,
    },
    /// Each line is run to its end, in the order of the lines.
    InOrder,
}

/// What the program is told to do.
#[derive(Clone, Copy, Debug, PartialEq, Eq)]
pub enum Command {
    /// A script is read and run: `run`, `run --seed N`, `run --order`.
    Run {
        /// How its callers take turns.
        turns: Turns,
    },
    /// A script is made and run, and its history is summed up: `gen --seed N --calls K`.
    Gen {
        /// The seed of the script and of its turns.
        seed: u64,
        /// How many calls the script has.
        calls: u32,
    },
    /// A script is made and shown: `show --seed N --calls K`.
    Show {
        /// The seed.
        seed: u64,
        /// How many calls the script has.
        calls: u32,
    },
}

/// The word `run`.
fn run_together(word: &[u8]) -> Option<Command>
    ensures command { result ≡ command_of (word.now ∷ []) }
    ensures few { IfSome result HasFew }
{
    if word != b"run".as_slice() {
        return None;
    }
    Some(Command::Run {
        turns: Turns::Together,
    })
}

/// The words `run --order`.
fn run_in_order(word: &[u8], order: &[u8]) -> Option<Command>
    ensures command { result ≡ command_of (word.now ∷ order.now ∷ []) }
    ensures few { IfSome result HasFew }
{
    if word != b"run".as_slice() || order != b"--order".as_slice() {
        return None;
    }
    Some(Command::Run {
        turns: Turns::InOrder,
    })
}

/// The words `run --seed N`.
fn run_by_seed(word: &[u8], seed: &[u8], number: &[u8]) -> Option<Command>
    ensures command { result ≡ command_of (word.now ∷ seed.now ∷ number.now ∷ []) }
    ensures few { IfSome result HasFew }
{
    if word != b"run".as_slice() || seed != b"--seed".as_slice() {
        return None;
    }
    match seed_of(number) {
        Some(seed) => Some(Command::Run {
            turns: Turns::Scattered { seed },
        }),
        None => None,
    }
}

/// A command that makes its script, by its first word.
fn making(word: &[u8], seed: Option<u64>, calls: Option<u32>) -> Option<Command>
    requires few { IfSome calls (λ calls. (8 ≤ calls) × (calls ≤ 4096)) }
    ensures command { result ≡ making word.now seed calls }
    ensures few { IfSome result HasFew }
{
    let (Some(seed), Some(calls)) = (seed, calls) else {
        return None;
    };
    if word == b"gen".as_slice() {
        return Some(Command::Gen { seed, calls });
    }
    if word == b"show".as_slice() {
        return Some(Command::Show { seed, calls });
    }
    None
}

/// The words `gen --seed N --calls K` and `show --seed N --calls K`.
fn make(word: &[u8], seed: &[u8], number: &[u8], calls: &[u8], count: &[u8]) -> Option<Command>
    ensures command { result ≡ command_of (word.now ∷ seed.now ∷ number.now ∷ calls.now ∷ count.now ∷ []) }
    ensures few { IfSome result HasFew }
{
    if seed != b"--seed".as_slice() || calls != b"--calls".as_slice() {
        return None;
    }
    making(word, seed_of(number), calls_of(count))
}

/// What the words say; `None` where they are no command.
pub fn command_of(words: &[String]) -> Option<Command>
    ensures command { result ≡ command_of (map string_bytes words.now) }
    ensures few { IfSome result HasFew }
{
    match words {
        [word] => run_together(word.as_bytes()),
        [word, order] => run_in_order(word.as_bytes(), order.as_bytes()),
        [word, seed, number] => { run_by_seed(word.as_bytes(), seed.as_bytes(), number.as_bytes()) }
        [word, seed, number, calls, count] => make(
            word.as_bytes(),
            seed.as_bytes(),
            number.as_bytes(),
            calls.as_bytes(),
            count.as_bytes(),
        ),
        _ => None,
    }
}

/// What the words say that one thread can do; `None` where they are no command, or the word `run` alone.
pub fn serial_command_of(words: &[String]) -> Option<Command>
    ensures command { result ≡ serial_command_of (map string_bytes words.now) }
    ensures few { IfSome result HasFew }
{
    match command_of(words) {
        Some(
            Command::Run {
                turns: Turns::Together,
            },
        ) => None,
        command => command,
    }
}
