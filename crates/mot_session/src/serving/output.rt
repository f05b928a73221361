//! Writing replies.
ghost use Rattle.std.specs.Prelude.{◌≡◌};
ghost use Rattle.mot_session.specs.Served.{Writes};

use mot_numbers::Refusal;
use std::io::Write;

/// A write or a flush failed.
#[derive(Clone, Copy, Debug, PartialEq, Eq)]
pub struct WriteFault;

impl From<WriteFault> for Refusal {
    ghost use Rattle.mot_numbers.specs.declared.refusal.Refusal.TheVariants.{WriteFault};

    ghost from_gives = { λ _ refusal. refusal ≡ WriteFault };

    fn from(_: WriteFault) -> Self {
        Refusal::WriteFault
    }
}

/// Writes all of the bytes; after a fault some first of them were written.
pub fn write_whole<W: Write>(writer: &mut W, bytes: &[u8]) -> Result<(), WriteFault>
    ensures { Writes result bytes.now (W.contents writer.old) (W.contents writer.new) }
{
    let mut at = 0;
    while at < bytes.len() {
        match writer.write(&bytes[at..]) {
            Ok(0) => return Err(WriteFault),
            Ok(count) => at += count,
            Err(_) => return Err(WriteFault),
        }
    }
    Ok(())
}
