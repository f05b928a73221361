//! The source of chance: the same seed gives the same numbers.

/// The source.
#[derive(Clone, Copy)]
pub(crate) struct Chance {
    state: u64,
}

impl Chance {
    /// That of the seed.
    pub(crate) fn new(seed: u64) -> Chance {
        Chance {
            state: seed.wrapping_add(1).wrapping_mul(0x9E37_79B9_7F4A_7C15),
        }
    }

    /// A number below this one; 0, if there is none.
    pub(crate) fn any(&mut self, below: u64) -> u64 {
        let mut x = self.state;
        x ^= x << 13;
        x ^= x >> 7;
        x ^= x << 17;
        self.state = x;
        (x >> 11).checked_rem(below).unwrap_or(0)
    }

    /// True once in this many times, and never if it is 0.
    pub(crate) fn is_one_in(&mut self, many: u64) -> bool {
        many != 0 && self.any(many) == 0
    }
}
