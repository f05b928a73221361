//! The folder that lines come from while a disk is played.
ghost use Rattle.std.specs.Prelude.{◌≡◌, None, false};
ghost use Rattle.mot_line_folder.specs.Spool.{spool_view};

use crate::spool::Spool;
use mot_files::System;
use mot_lines::Hand;
use std::alloc::Global;

/// A folder of files of lines.
#[derive(Drop)]
pub struct LinePlace<'a, S: System + Drop> {
    /// The files, which nothing else is asked of.
    pub system: S,
    /// Its path.
    pub path: &'a str,
}

impl<'a, S: System + Drop> LinePlace<'a, S> {
    /// The folder at this path.
    pub fn new(system: S, path: &'a str) -> LinePlace<'a, S>
        ensures path { result.path ≡ path.entry }
        ensures system { result.system ≡ system }
    {
        LinePlace { system, path }
    }

    /// Its files, of which none was read.
    pub fn spool(self, alloc: Global) -> Spool<'a, S>
        ensures { spool_view S.calls result ≡ record {
          folder = self.entry.path.now;
          torn = false;
          stopped = false;
          file = None;
          calls = S.calls self.entry.system;
        } }
    {
        Spool::new(self.system, alloc, self.path)
    }
}

/// A folder of files of lines, and what has come of the next line.
#[derive(Drop)]
pub struct LineFolder<'a, S: System + Drop> {
    /// The folder.
    pub place: LinePlace<'a, S>,
    /// What has come of the next line.
    pub hand: Hand,
    /// After how many packets it is read once; 0 counts as 1.
    pub every: u32,
}
