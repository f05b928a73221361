//! How a log shows a name.
ghost use Rattle.std.specs.Prelude.{◌≡◌, ◌<◌, ◌∷◌, [], IfNone, IfSome, length};
ghost use Rattle.mot_suffixes.specs.Shown.{are_control, is_control, shown, shown_byte};

/// Whether a letter is a control character.
pub fn is_control(letter: char) -> bool
    ensures { result ≡ is_control letter }
{
    letter < ' ' || letter > '~' && letter < '\u{a0}'
}

/// The first byte of a name as it is shown, and what follows the bytes that it stands for; `None`
/// if the name is at its end.
pub fn next_shown(name: &[u8]) -> Option<(u8, &[u8])>
    ensures first { IfSome result (λ cut. shown name.now ≡ cut.0 ∷ shown cut.1.now) }
    ensures shorter { IfSome result (λ cut. length cut.1.now < length name.now) }
    ensures none { IfNone result (name.now ≡ []) }
{
    let (byte, rest) = name.split_first()?;
    match rest.split_first() {
        Some((next, others)) if are_control(*byte, *next) => Some((b'?', others)),
        _ => Some((shown_byte(*byte), rest)),
    }
}

/// Whether two bytes are a control character above ASCII.
fn are_control(first: u8, second: u8) -> bool
    ensures { result ≡ are_control first second }
{
    first == 0xC2 && second >= 0x80 && second < 0xA0
}

/// A byte that is shown by itself.
fn shown_byte(byte: u8) -> u8
    ensures { result ≡ shown_byte byte }
{
    if byte < b' ' || byte == 0x7F {
        return b'?';
    }
    byte
}
