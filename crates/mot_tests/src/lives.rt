//! Lives: the calls that format, run commands or serve lines, and tell what a crash leaves, answer
//! where there is memory and nothing fails.
use crate::disks::{THREE, blank_disk, image_of, new_server, open};
use crate::expecting::expect;
use disk_store::MemoryDisk;
use mot_base::{Refusal, TransportId};
use mot_objects::{Command, Period};
use mot_playout::{
    Aftermath, Refused, Restarted, first_turn, format_and_restart, format_and_run, run_and_restart,
};
use mot_session::{format_and_serve, serve_and_restart, serve_line_and_restart};
use std::alloc::Global;

/// Lines of which two commands are done, each of which takes one id for the directory.
const LINES: &[u8] = b"period 5\nlist\nnext 1\nperiod 6\n";

/// A line whose command takes one id for the directory.
const LINE: &[u8] = b"period 5";

/// What is opened of a disk that was left: the directory's id, and the packets of the first turn.
type Opened = Result<(u16, usize), Refusal>;

fn opened(restarted: Result<Restarted<MemoryDisk>, Refused<MemoryDisk>>) -> Opened {
    match restarted {
        Ok(Restarted { server, packets }) => {
            Ok((server.carousel().directory.get(), packets.len()))
        }
        Err(refused) => Err(refused.refusal),
    }
}

fn played(alloc: Global, left: MemoryDisk) -> Opened {
    match first_turn(alloc, left) {
        Ok(first) => Ok((directory_on(alloc, first.disk)?, first.packets.len())),
        Err(refused) => Err(refused.refusal),
    }
}

fn directory_on(alloc: Global, disk: MemoryDisk) -> Result<u16, Refusal> {
    Ok(open(alloc, disk)?.carousel().directory.get())
}

/// The disk of a life, and what was opened of the one that was left.
type Lived = Result<(MemoryDisk, Opened), Refusal>;

/// The formatting of a disk.
fn formatted(alloc: Global, left: MemoryDisk) -> Lived {
    let mut disk = blank_disk(alloc, &THREE)?;
    let beginning = format_and_restart(&mut disk, alloc, &THREE, TransportId::FIRST, left);
    Ok((disk, opened(beginning.restarted)))
}

/// Two commands, each of which takes one id for the directory.
fn commands(alloc: Global) -> Result<Vec<Command>, Refusal> {
    let mut commands = Vec::new(alloc);
    for number in [5, 6] {
        commands.push(Command::Period(Period::new(number)?))?;
    }
    Ok(commands)
}

/// Those commands of a new server.
fn ran(alloc: Global, left: MemoryDisk) -> Lived {
    let commands = commands(alloc)?;
    let mut server = new_server(alloc, &THREE)?;
    let Aftermath { restarted, .. } = run_and_restart(&mut server, alloc, &commands, left);
    Ok((server.into_disk(), opened(restarted)))
}

/// The same from the formatting on.
fn formatted_and_ran(alloc: Global, left: MemoryDisk) -> Lived {
    let commands = commands(alloc)?;
    let disk = blank_disk(alloc, &THREE)?;
    let first = TransportId::FIRST;
    match format_and_run(disk, alloc, &THREE, first, &commands) {
        Ok(life) => Ok((life.disk, played(alloc, left))),
        Err(refused) => Err(refused.refusal),
    }
}

/// The life of a disk from its formatting on.
fn from_formatting(alloc: Global, left: MemoryDisk) -> Lived {
    let disk = blank_disk(alloc, &THREE)?;
    let mut reader = LINES;
    let mut written = Vec::new(alloc);
    let first = TransportId::FIRST;
    match format_and_serve(disk, alloc, &THREE, first, &mut reader, &mut written, 100) {
        Ok(life) => Ok((life.disk, played(alloc, left))),
        Err(refused) => Err(refused.refusal),
    }
}

/// The life of a new server.
fn served(alloc: Global, left: MemoryDisk) -> Lived {
    let mut server = new_server(alloc, &THREE)?;
    let mut reader = LINES;
    let mut written = Vec::new(alloc);
    let served = serve_and_restart(&mut server, alloc, &mut reader, &mut written, 100, left);
    Ok((server.into_disk(), opened(served.restarted)))
}

/// One line of it.
fn served_a_line(alloc: Global, left: MemoryDisk) -> Lived {
    let mut server = new_server(alloc, &THREE)?;
    let mut written = Vec::new(alloc);
    let served = serve_line_and_restart(&mut server, alloc, LINE, &mut written, left);
    Ok((server.into_disk(), opened(served.restarted)))
}

#[derive(Clone, Copy)]
enum Life {
    Formatted,
    Ran,
    FormattedAndRan,
    FromFormatting,
    Served,
    Line,
}

fn lived(alloc: Global, life: Life, left: MemoryDisk) -> Lived {
    match life {
        Life::Formatted => formatted(alloc, left),
        Life::Ran => ran(alloc, left),
        Life::FormattedAndRan => formatted_and_ran(alloc, left),
        Life::FromFormatting => from_formatting(alloc, left),
        Life::Served => served(alloc, left),
        Life::Line => served_a_line(alloc, left),
    }
}

/// What a life tells of that which a crash left of the same life before.
fn told(alloc: Global, life: Life) -> Opened {
    let (disk, _) = lived(alloc, life, blank_disk(alloc, &THREE)?)?;
    let (_, opened) = lived(alloc, life, image_of(alloc, &disk, &[])?)?;
    opened
}

#[test]
fn a_life_behind_another(rt: HostRuntime) {
    for (life, directory) in [
        (Life::Formatted, 1),
        (Life::Ran, 3),
        (Life::FormattedAndRan, 3),
        (Life::FromFormatting, 3),
        (Life::Served, 3),
        (Life::Line, 2),
    ] {
        let told = told(rt.alloc(), life);
        expect(&rt, (directory, told), (directory, Ok((directory, 2))));
    }
}
