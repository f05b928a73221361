//! The laws of waiting, as clauses of a function.
ghost use Rattle.mot_listening.specs.Ends.{BodiesComeWhole, EarlyIsShort, TurnsEndSoon};

/// Nobody starves: what holds of a player that follows all changes.
pub fn listening_laws()
    ensures turns_end { TurnsEndSoon }
    ensures bodies_come { BodiesComeWhole }
    ensures early_short { EarlyIsShort }
{}
