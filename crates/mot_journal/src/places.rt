//! Where the parts of a disk lie: its head, two halves, and the data area.
ghost use Rattle.std.specs.Prelude.{◌≡◌, ◌^◌, ◌<◌, ◌≤◌};
ghost use Rattle.mot_numbers.specs.Geometry as Sizes;

use crate::Geometry;

/// The bytes before the halves.
pub const HEAD_SIZE: usize = 64;

/// The bytes of a half.
pub fn half_size(geometry: &Geometry) -> usize
    ensures value { result ≡ Sizes.half_size geometry.now }
    ensures objects { geometry.now.objects < 2 ^ 16 }
{
    512 * usize::from(geometry.objects) + 1024
}

/// Where a half begins.
pub fn half_start(geometry: &Geometry, half: u8) -> u64
    requires { half ≤ 2 }
    ensures value { result ≡ Sizes.half_start geometry.now half }
    ensures objects { geometry.now.objects < 2 ^ 16 }
{
    HEAD_SIZE as u64 + u64::from(half) * half_size(geometry) as u64
}

/// Where the data area begins.
pub fn area_start(geometry: &Geometry) -> u64
    ensures value { result ≡ Sizes.area_start geometry.now }
    ensures low { result < 2 ^ 28 }
{
    half_start(geometry, 2)
}
