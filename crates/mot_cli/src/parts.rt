//! What the command line is made with.
ghost use Rattle.std.specs.Prelude.{◌≡◌, false};
ghost use Rattle.clap.specs.Words.{rule_of};
ghost use Rattle.mot_cli.specs.Inner.{IsMade, line_app, rule_for, verb_app};

use clap::{Arg, ArgAction, Command, value_parser};
use std::alloc::{AllocError, Global};

/// A command, as its row of the command line says.
pub(crate) struct Verb {
    /// Its name.
    pub(crate) name: &'static str,
    /// What the help says of it.
    pub(crate) about: &'static str,
    /// What is given after it.
    pub(crate) arguments: &'static [Argument],
}

/// An argument of a command.
pub(crate) struct Argument {
    /// Its name.
    pub(crate) name: &'static str,
    /// What it is.
    pub(crate) kind: Kind,
    /// What the help says of it.
    pub(crate) help: &'static str,
}

/// What an argument is.
pub(crate) enum Kind {
    /// A word that has to be given.
    Word,
    /// One word or more, which have to be given.
    Words,
    /// An option that is a path, and what stands for it in the help.
    Path(&'static str),
    /// An option that is a number of 32 bits, and what stands for it in the help.
    Number(&'static str),
    /// An option that is given alone.
    Flag,
}

/// The disk of a command.
pub(crate) const DISK: Argument = Argument {
    name: "DISK",
    kind: Kind::Word,
    help: "The file of the disk, or a block device",
};

/// The command line with these commands.
pub(crate) fn command_line<'a>(alloc: Global, verbs: &[Verb]) -> Result<Command<'a>, AllocError>
    ensures { IsMade (line_app verbs.now) result }
{
    let mut command = Command::new(alloc, "motcar")
        .bin_name("motcar")?
        .about("A data-service server for DAB digital radio")
        .no_binary_name(true)
        .subcommand_required(true);
    for verb in verbs {
        let below = verb_of(alloc, verb)?;
        command = command.subcommand(below)?;
    }
    Ok(command)
}

/// The command of a row.
fn verb_of<'a>(alloc: Global, verb: &Verb) -> Result<Command<'a>, AllocError>
    ensures { IsMade (verb_app verb.now) result }
{
    let mut command = Command::new(alloc, verb.name).about(verb.about);
    for argument in verb.arguments {
        command = command.arg(arg_of(alloc, argument))?;
    }
    Ok(command)
}

/// The argument in clap's words.
fn arg_of<'a>(alloc: Global, argument: &Argument) -> Arg<'a>
    ensures rule { rule_of result ≡ rule_for argument.now }
    ensures local { result.global ≡ false }
{
    let arg = Arg::new(alloc, argument.name)
        .help(argument.help)
        .action(ArgAction::Set);
    match argument.kind {
        Kind::Word => arg.required(true),
        Kind::Words => arg.action(ArgAction::Append).required(true),
        Kind::Path(value) => arg.long(argument.name).value_name(value),
        Kind::Number(value) => arg
            .long(argument.name)
            .value_name(value)
            .value_parser(value_parser!(u32)),
        Kind::Flag => arg.long(argument.name).action(ArgAction::SetTrue),
    }
}
