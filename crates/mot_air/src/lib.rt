//! The command that puts a carousel on air: it plays a disk into a pipe, and makes it equal to a
//! folder meanwhile.
#![tactic(auto)]

mod answered;
mod commands;
mod frames;
mod lives;
mod on_air;
mod playing;

pub use commands::play;
pub use lives::{keep_done, open_done};
pub use mot_cli::PlayTask;
pub use mot_endpoints::{Host, Target};
pub use mot_feed::Manner;
pub use mot_line_folder::LineFolder;
pub use mot_outcome::{Exit, UsedDisk};
pub use mot_status::Telling;
pub use mot_update::Ended;
pub use playing::{FollowedFolder, PlayEnd, play_and_answer, play_disk, play_with};
