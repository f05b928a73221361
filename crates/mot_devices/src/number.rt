//! The numbers of a device and of its partitions, as text.
ghost use Rattle.std.specs.Prelude.{◌≡◌, IfOk, string_bytes};
ghost use Rattle.mot_devices.specs.Mounts.{is_one_of};
ghost use Rattle.mot_devices.specs.Tables.{number_text};

use crate::mounts::is_line_of;
use itoa::Buffer;
use std::alloc::{AllocError, Global};

/// The number of a device, and those of its partitions.
#[derive(Drop)]
pub struct Numbers {
    /// Its own, as `8:0`.
    pub(crate) own: Vec<u8>,
    /// Those of its partitions, each with a line end.
    pub(crate) others: Vec<u8>,
}

impl Numbers {
    /// Whether it is one of them.
    pub(crate) fn has(&self, number: &[u8]) -> bool
        ensures { result ≡ is_one_of self.now.own.items self.now.others.items number.now }
    {
        self.own.as_slice() == number || is_line_of(&self.others, number)
    }
}

/// The number of a device as the tables of the system have it.
pub(crate) fn number_text(alloc: Global, number: u64) -> Result<String, AllocError>
    ensures { IfOk result (λ text. string_bytes text ≡ number_text number) }
{
    let mut digits = Buffer::new();
    let major = number / 256 % 4_096 + number / 17_592_186_044_416 * 4_096;
    let minor = number % 256 + number / 1_048_576 % 16_777_216 * 256;
    let mut text = String::from_str(alloc, digits.format(major))?;
    text.push_str(":")?;
    text.push_str(digits.format(minor))?;
    Ok(text)
}
