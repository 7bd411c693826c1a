//! The gaps that handles leave that were closed.

/// Which handles between the live ones were closed.
#[derive(Clone, Copy, PartialEq, Eq)]
pub enum Gaps {
    /// None.
    None,
    /// Every other one.
    EveryOther,
    /// Each with probability 1/2.
    Random,
    /// 10,000 between the first live one and the second.
    BehindFirst,
}

impl Gaps {
    /// How many handles are closed between the live handle of this number and the one before it, by
    /// a random number.
    pub fn closed_before(self, at: u64, random: u64) -> u32 {
        match self {
            Gaps::None => 0,
            Gaps::EveryOther => 1,
            Gaps::Random => (random >> 32).trailing_ones(),
            Gaps::BehindFirst => { if at == 1 { 10_000 } else { 0 } }
        }
    }
}

/// The random number after this one: a linear congruential generator, with the multiplier and the
/// increment of Knuth's MMIX.
pub fn next_random(random: u64) -> u64 {
    random
        .wrapping_mul(6_364_136_223_846_793_005)
        .wrapping_add(1_442_695_040_888_963_407)
}
