//! How a server is fed from.

/// How a server is fed from: how often the directory comes, when a look may come, and how long.
#[derive(Clone, Copy)]
pub struct Manner {
    /// After how many packets the directory is sent again. With 0 it comes at each turn's beginning
    /// alone, a changed turn begins anew, and looks come between turns alone.
    pub directory: u32,
    /// After how many packets of a turn a look may come; with 0 between turns alone.
    pub look: u32,
    /// How many changed bodies that are not begun come before the turn goes on, at most.
    pub early: u32,
    /// How many turns; `u64::MAX` are practically endless.
    pub turns: u64,
}
