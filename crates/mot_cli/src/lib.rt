//! The words of the command line, and what they ask for.
#![tactic(auto)]

mod by_hand;
mod command;
mod copying;
mod given;
mod health;
mod options;
mod parts;
mod playing;
mod task;
mod whole;

pub use command::motcar_matches;
pub use copying::CopyTask;
pub use given::has_levels;
pub use health::HealthTask;
pub use options::Options;
pub use playing::{LookRules, PlayTask, SyncTask};
pub use task::{DiskTask, Form, NoTask, Task, task_of};
