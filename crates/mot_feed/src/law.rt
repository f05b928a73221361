//! The laws of what happens in any feed, as clauses of a function.
ghost use Rattle.mot_feed.specs.Ends.{NobodyStarves};
ghost use Rattle.mot_feed.specs.Feeding.{FedPacketsAreContinuous};
ghost use Rattle.mot_feed.specs.Listening.{ListenersHear};
ghost use Rattle.mot_feed.specs.OnAir.{ChangedTurnsOnAirRead, TurnsOnAirRead};

/// What holds of every feed.
pub fn feed_laws()
    ensures continuous { FedPacketsAreContinuous }
    ensures turns_read { TurnsOnAirRead }
    ensures changed_turns_read { ChangedTurnsOnAirRead }

    // Who begins to listen at any packet, up to the next command; and since a command after how
    // many packets at most, whatever commands came before it.
    ensures listeners { ListenersHear }

    // Whatever commands come, turns end, and each body that stays is sent.
    ensures nobody_starves { NobodyStarves }
{}
