//! How a refusal prints.
use crate::expecting::expect;
use mot_base::Refusal;
use std::alloc::{AllocError, Global};

/// Whether a refusal prints as its number, a space and its name, and then this.
fn is_printed(alloc: Global, refusal: Refusal, behind: &str) -> Result<bool, AllocError> {
    let printed = format!(in alloc; "{refusal}")?;
    let wanted = format!(in alloc; "{} {}{behind}", refusal.number(), refusal.name())?;
    Ok(printed == wanted)
}

#[test]
fn a_refusal_prints_its_number_and_its_name(rt: HostRuntime) {
    let refusals = [
        Refusal::BadLine,
        Refusal::BadName,
        Refusal::BadType,
        Refusal::BadMime,
        Refusal::BadBody,
        Refusal::EmptyBody,
        Refusal::BodyTooLong,
        Refusal::BadNumber,
        Refusal::NameTaken,
        Refusal::NoSuchName,
        Refusal::TooManyObjects,
        Refusal::NoRoom,
        Refusal::OutOfMemory,
        Refusal::DeviceFault,
        Refusal::Halted,
        Refusal::NotFormatted,
        Refusal::AlreadyFormatted,
        Refusal::DiskTooSmall,
        Refusal::BadGeometry,
        Refusal::ReadFault,
        Refusal::WriteFault,
    ];
    for refusal in refusals {
        let is_printed = is_printed(rt.alloc(), refusal, "");
        expect(&rt, (refusal, is_printed), (refusal, Ok(true)));
    }
    let is_printed = is_printed(rt.alloc(), Refusal::Damaged(7), " 7");
    expect(&rt, is_printed, Ok(true));
}
