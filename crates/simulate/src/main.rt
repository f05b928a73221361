//! Runs the whole program on a machine in memory, seed by seed, and judges what came of it.
//!
//! `simulate [COUNT [FROM]]` tells so many seeds, up to the first that goes wrong. `simulate --seed S`
//! tells the story of one, call by call, and runs it twice, to see that both are the same.
#![tactic(auto)]

mod air;
mod answers;
mod asking;
mod commands;
mod counting;
mod ending;
mod hearing;
mod living;
mod log;
mod model;
mod receiver;
mod status;
mod stop;
mod story;
mod texts;

use crate::commands::COMMANDS;
use crate::counting::Counted;
use crate::story::tell;
use mot_memory_files::{CALLS, Reach};
use std::process::ExitCode;
use std::{env, io};

/// How many seeds are told if no word says it.
const USUAL: u64 = 1_000;

fn main(rt: HostRuntime) -> ExitCode {
    match run(&rt) {
        Ok(true) => ExitCode::from(0),
        _ => ExitCode::from(1),
    }
}

/// Whether nothing was wrong.
fn run(rt: &HostRuntime) -> io::Result<bool> {
    let words: Vec<String> = env::args(rt)?.skip(1).collect(rt.alloc())?;
    match words.as_slice() {
        [] => tell_many(rt, 0, USUAL),
        [count] => tell_many(rt, 0, number(count.as_str())),
        [word, seed] if word.as_str() == "--seed" => tell_one(rt, number(seed.as_str())),
        [count, from] => tell_many(rt, number(from.as_str()), number(count.as_str())),
        _ => Ok(false),
    }
}

fn number(word: &str) -> u64 {
    word.parse::<u64>().unwrap_or(0)
}

/// The story of a seed, twice.
fn tell_one(rt: &HostRuntime, seed: u64) -> io::Result<bool> {
    let story = tell(rt.alloc(), seed, true)?;
    let again = tell(rt.alloc(), seed, true)?;
    let mut out = rt.stdout();
    io::Write::write_all(&mut out, story.trace.as_slice())?;
    let is_same = story.trace.as_slice() == again.trace.as_slice();
    let twice = if is_same { "the same" } else { "not the same" };
    let wrong = story.wrong.unwrap_or("nothing");
    println!(rt; "\nseed {seed}: wrong: {wrong}; twice: {twice}")?;
    Ok(story.wrong.is_none() && is_same)
}

/// The stories of so many seeds, up to the first that goes wrong, whose calls are printed.
fn tell_many(rt: &HostRuntime, from: u64, count: u64) -> io::Result<bool> {
    let mut sum = Counted::new(rt.alloc())?;
    for seed in from..from.saturating_add(count) {
        let story = tell(rt.alloc(), seed, false)?;
        if let Some(wrong) = story.wrong {
            let story = tell(rt.alloc(), seed, true)?;
            let mut out = rt.stdout();
            io::Write::write_all(&mut out, story.trace.as_slice())?;
            println!(rt; "\nseed {seed}: {wrong}")?;
            return Ok(false);
        }
        sum.add(&story.counted)?;
    }
    print_sum(rt, count, &sum)?;
    Ok(true)
}

/// What the seeds came to.
fn print_sum(rt: &HostRuntime, count: u64, sum: &Counted) -> io::Result<()> {
    let (lives, crashes, kills) = (sum.lives, sum.crashes, sum.kills);
    let (calls, packets, bodies) = (sum.calls, sum.packets, sum.bodies);
    println!(rt;
        "{count} seeds: {lives} lives, {crashes} power cuts, {kills} kills, {calls} calls, \
        {packets} packets, {bodies} bodies received, 0 wrong"
    )?;
    print!(rt; "commands:")?;
    for (name, lives) in COMMANDS.iter().zip(sum.commands.iter()) {
        print!(rt; " {lives} {name};")?;
    }
    print!(rt; "\ncalls, refused, died at:")?;
    for call in CALLS {
        let (made, refused) = (sum.times(Reach::Made(*call)), sum.refused(*call));
        let (died, name) = (sum.times(Reach::Died(*call)), call.name());
        print!(rt; " {made} {refused} {died} {name};")?;
    }
    println!(rt; "")?;
    Ok(())
}
