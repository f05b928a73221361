//! What an opening leaves beside a file that is no disk, or not one for what is asked.
ghost use Rattle.std.specs.Prelude.{◌≡◌};

use mot_endpoints::{Host, Machine};
use mot_numbers::Refusal;

/// Takes away the empty file that the last opening has made beside a file, if that was refused so as it
/// was found: no disk, a disk already, or too short.
pub fn clear_unfit<M: Machine + Drop>(host: &mut Host<M>, refusal: Refusal)
    ensures { host.new.system ≡ host.old.system }
{
    if is_unfit(refusal) {
        host.clear_side();
    }
}

/// The same, by what a task came to.
pub fn clear_after<T, M: Machine + Drop>(host: &mut Host<M>, ended: &Result<T, Refusal>)
    ensures { host.new.system ≡ host.old.system }
{
    if let Err(refusal) = ended {
        clear_unfit(host, *refusal);
    }
}

/// Whether a file is refused so as it was found.
fn is_unfit(refusal: Refusal) -> bool {
    matches!(
        refusal,
        Refusal::NotFormatted | Refusal::AlreadyFormatted | Refusal::DiskTooSmall
    )
}
