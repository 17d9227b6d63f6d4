ghost use Rattle.std.specs.Prelude.{◌≡◌};
ghost use Rattle.name_cache.specs.Entries.{same_vid};

use op_vector::Vid;
use std::marker::Model;
use vfs_tree::Name;

/// The key of an entry: a directory and a name, which contracts see as the pair of them.
///
/// The name's bytes stand in a row of 255 with zeros behind them, so that a key is made and copied without memory.
#[derive(Clone, Copy, PartialEq, Eq, Hash)]
pub struct Key {
    dir: Vid,
    len: u8,
    bytes: [u8; 255],
}

impl Model for Key {
    ghost use Rattle.std.specs.Prelude.{◌≡◌, ℕ, List, ◌++◌, ◌-◌, ◌≤◌, length, take, drop, replicate};
    ghost use Rattle.op_vector.specs.declared.data.Vid.{Vid};
    ghost use Rattle.name_cache.specs.Rows.{inverse_row};

    ghost Value = { Vid × List ℕ };

    ghost view = { λ k. (k.dir, take k.len k.bytes) };

    ghost invariant = { λ k. (k.len ≤ 255) × (length k.bytes ≡ 255) × (drop k.len k.bytes ≡ replicate (255 - k.len) 0) };

    ghost inverse = { λ p. record { dir = p.0; len = length p.1; bytes = p.1 ++ replicate (255 - length p.1) 0 } };

    ghost inverse_ok = { λ k h. λ i. record { dir = k.dir; len = (inverse_row k.len k.bytes h.0 h.1 h.2).0 i; bytes = (inverse_row k.len k.bytes h.0 h.1 h.2).1 i } };
}

impl Key {
    /// The key of a name in a directory.
    pub fn new(dir: Vid, name: &Name) -> Key
        ensures { result ≡ (dir, name.now) }
    {
        let text = name.as_slice();
        let len = text.len();
        let mut bytes = [0u8; 255];
        bytes[..len].copy_from_slice(text);
        Key {
            dir,
            len: len as u8,
            bytes,
        }
    }

    /// Whether the key is in this directory.
    pub fn is_in(&self, dir: Vid) -> bool
        ensures { result ≡ same_vid dir self.now.0 }
    {
        self.dir == dir
    }
}
