//! The parts of bytes, each ended by the same byte.
ghost use Rattle.std.specs.Prelude.{◌≡◌, ◌<◌, ◌∷◌, [], IfNone, IfSome, length};
ghost use Rattle.mot_devices.specs.Mounts.{parts_of};

use memchr::memchr;

/// The first of the parts that this byte ends, and what stands after its end; `None` if there is
/// none.
pub(crate) fn cut(byte: u8, bytes: &[u8]) -> Option<(&[u8], &[u8])>
    ensures first { IfSome result (λ cut. parts_of byte bytes.now ≡ cut.0.now ∷ parts_of byte cut.1.now) }
    ensures shorter { IfSome result (λ cut. length cut.1.now < length bytes.now) }
    ensures none { IfNone result (parts_of byte bytes.now ≡ []) }
{
    let end = memchr(byte, bytes)?;
    Some((&bytes[..end], &bytes[end + 1..]))
}
