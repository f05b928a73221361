//! Where a line ends.
ghost use Rattle.std.specs.Prelude.{◌≡◌, ◌∷◌, ◌++◌, IfSome, IfNone};
ghost use Rattle.mot_lines.specs.Lines.{HasNoLineEnd};

use memchr::memchr;

/// The bytes before the first line end of these bytes, and those after it; `None` if no line ends
/// in them.
pub fn cut_at_line_end(bytes: &[u8]) -> Option<(&[u8], &[u8])>
    ensures parts { IfSome result (λ cut. bytes.now ≡ cut.0.now ++ 10 ∷ cut.1.now) }
    ensures first { IfSome result (λ cut. HasNoLineEnd cut.0.now) }
    ensures none { IfNone result (HasNoLineEnd bytes.now) }
{
    let end = memchr(b'\n', bytes)?;
    Some((&bytes[..end], &bytes[end + 1..]))
}
