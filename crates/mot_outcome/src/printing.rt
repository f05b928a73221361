//! Printing bytes, whole or up to a fault.
ghost use Rattle.std.specs.Prelude.{◌≡◌, MatchResult, Some};
ghost use Rattle.std.specs.Io.KnownBytes.{Keeps};
ghost use Rattle.mot_numbers.specs.declared.refusal.Refusal.TheVariants.{OutOfMemory};
ghost use Rattle.mot_outcome.specs.Outcome.{Prints, number_line};
ghost use Rattle.mot_playout.specs.Attempts.{fault_of};

use itoa::Buffer;
use mot_numbers::Refusal;
use mot_session::write_whole;
use std::alloc::AllocError;
use std::io::Write;

/// Writes all of the bytes; after a fault some first of them were written.
pub fn write_bytes<W: Write>(writer: &mut W, bytes: &[u8]) -> Result<(), Refusal>
    ensures { Prints (fault_of result) bytes.now
        (W.contents writer.old) (W.contents writer.new) }
{
    write_whole(writer, bytes).map_err(|_| Refusal::WriteFault)
}

/// Writes the end of what is printed, and hands all of it on.
pub fn write_last<W: Write>(writer: &mut W, bytes: &[u8]) -> Result<(), Refusal>
    ensures { Prints (fault_of result) bytes.now
        (W.contents writer.old) (W.contents writer.new) }
{
    write_bytes(writer, bytes)?;
    writer.flush().map_err(|_| Refusal::WriteFault)
}

/// Prints a text, if there was memory for it, and hands all of it on.
pub fn print_text<W: Write>(
    writer: &mut W,
    text: Result<Vec<u8>, AllocError>,
) -> Result<(), Refusal>
    ensures { MatchResult text
        (λ text. Prints (fault_of result) text.items (W.contents writer.old)
        (W.contents writer.new))
        (λ _. (fault_of result ≡ Some OutOfMemory)
        × Keeps (W.contents writer.old) (W.contents writer.new)) }
{
    match text {
        Ok(text) => write_last(writer, &text),
        Err(AllocError) => Err(Refusal::OutOfMemory),
    }
}

/// Writes a line of these bytes and a number in decimal digits, and hands all of it on.
pub fn write_number<W: Write>(writer: &mut W, bytes: &[u8], number: u64) -> Result<(), Refusal>
    ensures { Prints (fault_of result) (number_line bytes.now number)
        (W.contents writer.old) (W.contents writer.new) }
{
    let mut digits = Buffer::new();
    write_bytes(writer, bytes)?;
    write_bytes(writer, digits.format(number).as_bytes())?;
    write_last(writer, b"\n")
}
