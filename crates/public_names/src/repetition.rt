//! A command as a user of the libraries makes it.
ghost use Rattle.std.specs.Prelude.{◌≡◌, ◌≤◌, ◌↔◌, IfErr, IfOk, IsOk};
ghost use Rattle.mot_numbers.specs.declared.refusal.Refusal.TheVariants.{BadNumber};
ghost use Rattle.mot_objects.specs.declared.command.Command.TheVariants as command;
ghost use Rattle.mot_objects.specs.declared.period.TheConstants.{MAX_PERIOD};

use mot_base::Refusal;
use mot_carousel::{Command, Period};

/// The command that sets the directory's DataCarouselPeriod (EN 301 234) to this number;
/// `BadNumber` above 16,777,215.
pub fn set_period(number: u32) -> Result<Command, Refusal>
    ensures valid { IsOk result ↔ (number ≤ MAX_PERIOD) }
    ensures command { IfOk result (λ made. made ≡ command.Period number) }
    ensures refused { IfErr result (λ refusal. refusal ≡ BadNumber) }
{
    Ok(Command::Period(Period::new(number)?))
}
