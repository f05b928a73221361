//! What the commands on air are asked for.
ghost use Rattle.std.specs.Prelude.{◌≡◌, codes};
ghost use Rattle.clap.specs.Words.{found_of, rows_of};
ghost use Rattle.mot_cli.specs.Task.{AreRules, GiveRate, IsTask};
ghost use Rattle.mot_cli.specs.Inner.{Finds};

use crate::given::{is_set, number_of, word_of};
use crate::task::Task;
use crate::whole::is_whole;
use clap::ArgMatches;

/// How a folder is looked at.
#[derive(Clone, Copy)]
pub struct LookRules {
    /// Whether all objects are withdrawn if the folder has none.
    pub allow_empty: bool,
    /// Whether most objects stay, unless all may go.
    pub keep_most: bool,
    /// Whether files are taken that were changed less than two seconds ago.
    pub at_once: bool,
}

/// The folder that the carousel of a disk is made equal to.
#[derive(Clone, Copy)]
pub struct SyncTask<'a> {
    /// The path of the disk's file.
    pub disk: &'a str,
    /// The path of the folder.
    pub folder: &'a str,
    /// The path of the file that adds suffixes, if one is given.
    pub types: Option<&'a str>,
    /// How the folder is looked at.
    pub rules: LookRules,
    /// Whether it is only printed what would be done, and nothing changed.
    pub dry_run: bool,
}

/// What is played, and into what.
#[derive(Clone, Copy)]
pub struct PlayTask<'a> {
    /// The path of the disk's file.
    pub disk: &'a str,
    /// The place of the packets: the path of a pipe, a device or a file, or `-`.
    pub packets: &'a str,
    /// The path of the folder that the carousel is made equal to, if one is given.
    pub folder: Option<&'a str>,
    /// The path of the file that adds suffixes, if one is given.
    pub types: Option<&'a str>,
    /// How the folder is looked at.
    pub rules: LookRules,
    /// The path of the folder whose files are answered as lines, if one is given.
    pub lines: Option<&'a str>,
    /// After how many packets lines are read; 8, if no number is given.
    pub every: Option<u32>,
    /// How many whole turns. If no number is given: without end, and into no file.
    pub turns: Option<u32>,
    /// After how many packets the directory is sent again; 0: at each turn's beginning alone. If no
    /// number is given: without end 340 for each packet that a frame holds, and else 0.
    pub directory: Option<u32>,
    /// After how many packets of a turn the folder is looked at; 0: between turns alone. If no
    /// number is given: without end 100 for each packet that a frame holds, and else 0.
    pub look: Option<u32>,
    /// How many changed bodies at most come before the rest of the turn, of those that are not begun;
    /// 3, if no number is given. They come so where the directory is sent again within a turn.
    pub early: Option<u32>,
    /// The rate in kbit/s of the sub-channel that the packets are for, by which a frame holds one
    /// packet or several; if none is given, a frame is taken to hold one.
    pub rate: Option<u32>,
    /// The path of the file that the status is written to, if one is given.
    pub status: Option<&'a str>,
    /// Whether lines of the log begin with their level.
    pub levels: bool,
}

/// The task of the command `play`.
pub(crate) fn play_of<'m, 'a>(words: &'m ArgMatches<'a>) -> Option<Task<'m, 'a>>
    ensures { Finds (IsTask (codes "play") (rows_of (found_of words.now))) result }
{
    if !is_whole(words) {
        return None;
    }
    Some(Task::Play(PlayTask {
        disk: word_of(words, "DISK")?,
        packets: word_of(words, "PACKETS")?,
        folder: word_of(words, "folder"),
        types: word_of(words, "types"),
        rules: rules_of(words),
        lines: word_of(words, "lines"),
        every: number_of(words, "every")?,
        turns: number_of(words, "turns")?,
        directory: number_of(words, "directory")?,
        look: number_of(words, "look")?,
        early: number_of(words, "early")?,
        rate: rate_of(words)?,
        status: word_of(words, "status"),
        levels: is_set(words, "levels"),
    }))
}

/// The task of the command `sync`.
pub(crate) fn sync_of<'m, 'a>(words: &'m ArgMatches<'a>) -> Option<Task<'m, 'a>>
    ensures { Finds (IsTask (codes "sync") (rows_of (found_of words.now))) result }
{
    Some(Task::Sync(SyncTask {
        disk: word_of(words, "DISK")?,
        folder: word_of(words, "DIR")?,
        types: word_of(words, "types"),
        rules: rules_of(words),
        dry_run: is_set(words, "dry-run"),
    }))
}

/// How the folder of a command is looked at.
fn rules_of(words: &ArgMatches<'_>) -> LookRules
    ensures { AreRules (rows_of (found_of words.now)) result }
{
    LookRules {
        allow_empty: is_set(words, "allow-empty"),
        keep_most: is_set(words, "keep-most"),
        at_once: is_set(words, "at-once"),
    }
}

/// The rate in kbit/s that is given, if one is; `None` if no sub-channel has it: each is a multiple
/// of 8, and at most 1,824.
pub(crate) fn rate_of(words: &ArgMatches<'_>) -> Option<Option<u32>>
    ensures { Finds (GiveRate (rows_of (found_of words.now))) result }
{
    match number_of(words, "rate")? {
        Some(rate) if rate < 8 || rate > 1_824 || rate % 8 != 0 => None,
        rate => Some(rate),
    }
}
