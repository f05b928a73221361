//! Where an update comes among the packets of a carousel.
ghost use Rattle.std.specs.Prelude.{◌≡◌};
ghost use Rattle.mot_update.specs.HasRun.{may_look};

/// Where an update comes among the packets of a carousel.
#[derive(Clone, Copy, Debug, PartialEq, Eq)]
pub enum UpdatePoint {
    /// A turn has ended, or none was begun.
    BetweenTurns,
    /// Within a turn, where a look may come.
    AtLook,
    /// Within a turn, where no look may come.
    Within,
}

impl UpdatePoint {
    /// Whether a look may come there.
    pub fn may_look(self) -> bool
        ensures { result ≡ may_look self }
    {
        match self {
            UpdatePoint::BetweenTurns => true,
            UpdatePoint::AtLook => true,
            UpdatePoint::Within => false,
        }
    }
}
