ghost use Rattle.std.specs.Prelude.{◌≡◌, ◌<◌, ◌≤◌};
ghost use Rattle.turn_order.specs.Scattering.{mix, pick, folded, product_64};

/// The word with its high bits folded down by so many places, times the factor; the product wraps.
fn scattered(z: u64, places: u32, factor: u64) -> u64
    requires { places < 64 }
    ensures { result ≡ product_64 (folded z places) factor }
{
    (z ^ (z >> places)).wrapping_mul(factor)
}

/// The word number `k`, counted from 0, that is scattered from the seed, as SplitMix64 does. Sums and products wrap at
/// 64 bits.
#[tactic(auto, unfolding(crate::specs::Scattering::mix))]
pub fn mix(seed: u64, k: u64) -> u64
    ensures { result ≡ mix seed k }
{
    let start = seed.wrapping_add(k.wrapping_add(1).wrapping_mul(0x9E37_79B9_7F4A_7C15));
    let first = scattered(start, 30, 0xBF58_476D_1CE4_E5B9);
    let second = scattered(first, 27, 0x94D0_49BB_1331_11EB);
    second ^ (second >> 31)
}

/// The place, from 0 to `n - 1`, on which this turn falls: `mix` of the seed and the turn, modulo `n`.
pub fn pick(seed: u64, turn: u64, n: u32) -> u32
    requires { 1 ≤ n }
    ensures { result ≡ pick seed turn n }
{
    (mix(seed, turn) % u64::from(n)) as u32
}
