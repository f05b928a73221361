//! How often what was reached: so one sees what a draw gives too seldom.
use crate::call::Call;
use std::alloc::AllocError;
use std::fmt::{self, Display, Formatter};

/// What may be reached.
#[derive(Clone, Copy, PartialEq, Eq)]
pub enum Reach {
    /// The call was made.
    Made(Call),
    /// It failed by the plan, with this number of the system.
    Failed(Call, i32),
    /// It did its work, and failed with this number all the same.
    Late(Call, i32),
    /// It did a part of its work, and failed.
    Torn(Call),
    /// The machine died by it.
    Died(Call),
    /// Another program changed something.
    Changed,
    /// It did so twice in one tick of the clock.
    Doubled,
    /// The pipe's reader took a part of a packet.
    Cut,
    /// A folder changed while its names were read.
    Stirred,
    /// The clock jumped.
    Jumped,
    /// The permission of a file was taken, or given again.
    Permission,
}

/// How often it was.
#[derive(Clone, Copy)]
pub struct ReachCount {
    /// What.
    pub what: Reach,
    /// How often.
    pub times: u64,
}

impl Display for ReachCount {
    fn fmt<W: fmt::Write>(&self, f: &mut Formatter<W>) -> fmt::Result {
        let times = self.times;
        match self.what {
            Reach::Made(call) => write!(f, "made {}: {times}", call.name()),
            Reach::Failed(call, code) => write!(f, "failed {} {code}: {times}", call.name()),
            Reach::Late(call, code) => write!(f, "late {} {code}: {times}", call.name()),
            Reach::Torn(call) => write!(f, "torn {}: {times}", call.name()),
            Reach::Died(call) => write!(f, "died {}: {times}", call.name()),
            Reach::Changed => write!(f, "changed: {times}"),
            Reach::Doubled => write!(f, "changed twice at once: {times}"),
            Reach::Cut => write!(f, "packet cut: {times}"),
            Reach::Stirred => write!(f, "changed while listed: {times}"),
            Reach::Jumped => write!(f, "clock jumped: {times}"),
            Reach::Permission => write!(f, "permission: {times}"),
        }
    }
}

/// Adds these to the sum over several machines.
pub fn add_reached(sum: &mut Vec<ReachCount>, more: &[ReachCount]) -> Result<(), AllocError> {
    for reached in more {
        add_times(sum, reached.what, reached.times)?;
    }
    Ok(())
}

/// How often this call failed by the plan.
pub fn times_failed(sum: &[ReachCount], call: Call) -> u64 {
    let mut times = 0u64;
    for reached in sum {
        if is_failed(reached.what, call) {
            times = times.wrapping_add(reached.times);
        }
    }
    times
}

/// Whether this is a failure of the call.
fn is_failed(what: Reach, call: Call) -> bool {
    match what {
        Reach::Failed(failed, _) | Reach::Late(failed, _) => failed == call,
        _ => false,
    }
}

/// Adds so many times.
pub(crate) fn add_times(
    sum: &mut Vec<ReachCount>,
    what: Reach,
    times: u64,
) -> Result<(), AllocError> {
    if let Some(at) = place_of(sum.as_slice(), what) {
        if let Some(reached) = sum.get_mut(at) {
            reached.times = reached.times.wrapping_add(times);
        }
        return Ok(());
    }
    sum.push(ReachCount { what, times })?;
    Ok(())
}

fn place_of(sum: &[ReachCount], what: Reach) -> Option<usize> {
    for (at, reached) in sum.iter().enumerate() {
        if reached.what == what {
            return Some(at);
        }
    }
    None
}
