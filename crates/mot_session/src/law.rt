//! The law of replies, as a clause of a function.
ghost use Rattle.mot_session.specs.Laws.{RepliesAreCutOnce};

/// What holds of the replies to lines: the bytes that were read and written say which command each
/// reply belongs to, and so which commands are done.
pub fn told_laws()
    ensures once { RepliesAreCutOnce }
{}
