//! What a turn changed of the bodies of the one before it.
ghost use Rattle.std.specs.Prelude.{◌≡◌, ◌≤◌, length};
ghost use Rattle.mot_player.specs.Inner.Difference.{added, alike, are_alike, difference_from, plans_of};

use crate::planned_body::PlannedBody;

/// One change of a turn's bodies. A body has the number of its entity, so the first is number 1.
#[derive(Clone, Copy)]
pub(crate) enum Difference {
    /// The bodies stayed.
    Nothing,
    /// One was put after the others.
    Added,
    /// One came in the place of this one.
    Changed(usize),
    /// This one is gone.
    Removed(usize),
}

/// The one change between the bodies of two turns; `None` if there were more.
pub(crate) fn difference_between(old: &[PlannedBody], new: &[PlannedBody]) -> Option<Difference>
    ensures { result ≡ difference_from 1 (plans_of old.now) (plans_of new.now) }
{
    let at = alike(old, new);
    let (_, olds) = old.split_at(at);
    let (_, news) = new.split_at(at);
    if olds.len() == 0 {
        return added(news.len());
    }
    let (_, others) = olds.split_at(1);
    if are_alike(others, news) {
        return Some(Difference::Removed(at + 1));
    }
    if news.len() > 0 && are_alike(others, news.split_at(1).1) {
        return Some(Difference::Changed(at + 1));
    }
    None
}

/// The change where so many bodies come after the old ones.
fn added(count: usize) -> Option<Difference>
    ensures { result ≡ added count }
{
    match count {
        0 => Some(Difference::Nothing),
        1 => Some(Difference::Added),
        _ => None,
    }
}

/// How many bodies both begin with.
fn alike(old: &[PlannedBody], new: &[PlannedBody]) -> usize
    ensures alike { result ≡ alike (plans_of old.now) (plans_of new.now) }
    ensures within { (result ≤ length old.now) × (result ≤ length new.now) }
{
    let mut at = 0;
    while at < old.len() && at < new.len() && old[at].is_same(new[at]) {
        at += 1;
    }
    at
}

/// Whether they are the same bodies.
fn are_alike(old: &[PlannedBody], new: &[PlannedBody]) -> bool
    ensures { result ≡ are_alike (plans_of old.now) (plans_of new.now) }
{
    old.len() == new.len() && alike(old, new) == old.len()
}
