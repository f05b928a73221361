//! Words and numbers.
ghost use Rattle.std.specs.Prelude.{◌≡◌, ◌≢◌, ◌∷◌, [], IfNone, IfSome, bytes_eq, length};
ghost use Rattle.mot_lines.specs.Fields.{words_of, number_of_word, words_after};
ghost use Rattle.mot_lines.specs.Inner.{IsOne, AreThree, AreFive};

use memchr::memchr;

/// The number of 1 to 10 digits.
pub(super) fn parse_number(word: &[u8]) -> Option<u64>
    ensures { result ≡ number_of_word word.now }
{
    if word.is_empty() || word.len() > 10 {
        return None;
    }
    let mut number = 0u64;
    for digit in word {
        if !digit.is_ascii_digit() {
            return None;
        }
        number = number * 10 + u64::from(*digit - b'0');
    }
    Some(number)
}

pub(super) fn is_word(word: &[u8], text: &[u8]) -> bool
    ensures { result ≡ bytes_eq word.now text.now }
{
    word == text
}

/// The word, if there is one.
pub(super) fn one_word(words: Option<&[u8]>) -> Option<&[u8]>
    ensures { IsOne result (words_after words.entry) }
{
    let (first, rest) = cut_word(words?);
    if rest.is_some() {
        return None;
    }
    Some(first)
}

/// The words, if there are five.
pub(super) fn five_words(words: Option<&[u8]>) -> Option<(&[u8], &[u8], &[u8], &[u8], &[u8])>
    ensures { AreFive result (words_after words.entry) }
{
    let (first, rest) = cut_word(words?);
    let (second, rest) = cut_word(rest?);
    let (third, fourth, fifth) = three_words(rest)?;
    Some((first, second, third, fourth, fifth))
}

/// The words of a line, if there are four.
pub fn four_words(line: &[u8]) -> Option<(&[u8], &[u8], &[u8], &[u8])>
    ensures words { IfSome result (λ four. words_of line.now
        ≡ four.0.now ∷ four.1.now ∷ four.2.now ∷ four.3.now ∷ []) }
    ensures none { IfNone result (length (words_of line.now) ≢ 4) }
{
    let (first, rest) = cut_word(line);
    let (second, third, fourth) = three_words(rest)?;
    Some((first, second, third, fourth))
}

/// The words, if there are three.
pub(super) fn three_words(words: Option<&[u8]>) -> Option<(&[u8], &[u8], &[u8])>
    ensures { AreThree result (words_after words.entry) }
{
    let (first, rest) = cut_word(words?);
    let (second, rest) = cut_word(rest?);
    let (third, rest) = cut_word(rest?);
    match rest {
        None => Some((first, second, third)),
        Some(_) => None,
    }
}

/// The first word, and what follows the space after it.
pub fn cut_word(bytes: &[u8]) -> (&[u8], Option<&[u8]>)
    ensures { words_of bytes.now ≡ result.0.now ∷ words_after result.1 }
{
    match memchr(b' ', bytes) {
        Some(at) => (&bytes[..at], Some(&bytes[at + 1..])),
        None => (bytes, None),
    }
}
