// The entries of a map by their index, in the order of their keys.
ghost use Rattle.std.specs.Prelude.{◌≡◌};
ghost use Rattle.std.specs.FinMap.{entries};
ghost use Rattle.plain_effects.specs.Entries.{key_at};

use finite_maps::{NumberMap, PairMap};

/// The key of the entry at an index. `None` comes exactly where there is no such entry.
pub(crate) fn number_at<V>(map: &NumberMap<V>, at: usize) -> Option<u32>
    ensures { result ≡ key_at (entries map.now) at }
{
    let mut left = at;
    for (key, _value) in map.iter() {
        if left == 0 {
            return Some(*key);
        }
        left -= 1;
    }
    None
}

/// The key of the entry at an index. `None` comes exactly where there is no such entry.
pub(crate) fn pair_at<V>(map: &PairMap<V>, at: usize) -> Option<(u32, u32)>
    ensures { result ≡ key_at (entries map.now) at }
{
    let mut left = at;
    for (key, _value) in map.iter() {
        if left == 0 {
            return Some(*key);
        }
        left -= 1;
    }
    None
}
