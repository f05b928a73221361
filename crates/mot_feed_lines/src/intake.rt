//! What has come of lines.
use mot_events::LineCount;
use mot_lines::Hand;

/// What has come of lines: the front of the next one, and of which file they are.
#[derive(Drop)]
pub struct Intake {
    /// What has come of the next line.
    pub hand: Hand,
    /// The file, and how many of its lines were answered.
    pub count: LineCount,
}
