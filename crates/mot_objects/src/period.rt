//! The period of a carousel.
ghost use Rattle.std.specs.Prelude.{◌≡◌, ◌↔◌, ℕ, ◌≤◌, IsOk, IfOk, IfErr};
ghost use Rattle.mot_numbers.specs.declared.refusal.Refusal.TheVariants.{BadNumber};
ghost use Rattle.mot_objects.specs.declared.period.TheConstants.{MAX_PERIOD};

use mot_numbers::Refusal;
use std::marker::Model;

/// The greatest period: its field has 24 bits.
pub const MAX_PERIOD: u32 = 16_777_215;

/// The DataCarouselPeriod of the directory (EN 301 234), 0 to 16,777,215: the number that was set,
/// whatever its unit.
#[derive(Clone, Copy, Debug, PartialEq, Eq)]
pub struct Period {
    number: u32,
}

impl Model for Period {
    ghost Value = { ℕ };

    ghost view = { λ period. period.number };

    ghost invariant = { λ period. period.number ≤ MAX_PERIOD };

    ghost inverse = { λ n. record { number = n } };
}

impl Period {
    /// The period of a new carousel.
    pub const ZERO: Period = Period { number: 0 };

    /// The period of this number; `BadNumber` above 16,777,215.
    pub fn new(number: u32) -> Result<Self, Refusal>
        ensures valid { IsOk result ↔ (number ≤ MAX_PERIOD) }
        ensures value { IfOk result (λ period. period ≡ number) }
        ensures refused { IfErr result (λ refusal. refusal ≡ BadNumber) }
    {
        if number <= MAX_PERIOD {
            Ok(Period { number })
        } else {
            Err(Refusal::BadNumber)
        }
    }

    /// The period's number, 0 to 16,777,215.
    pub fn get(self) -> u32
        ensures value { result ≡ self }
        ensures range { self ≤ MAX_PERIOD }
    {
        self.number
    }
}
