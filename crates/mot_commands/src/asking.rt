//! The command that a file or a name asks for.
ghost use Rattle.std.specs.Prelude.{◌≡◌, ◌≢◌, ◌⊎◌, [], MatchResult, true};
ghost use Rattle.mot_commands.specs.Asking.{IsRequest, base_name, put_at, unread_refusal};
ghost use Rattle.mot_commands.specs.declared.asking.Words.TheVariants.{Files};
ghost use Rattle.mot_files.specs.Reading.{IsRead, IsUnread};
ghost use Rattle.mot_numbers.specs.declared.refusal.Refusal.TheVariants.{EmptyBody};
ghost use Rattle.mot_objects.specs.declared.body.TheConstants.{MAX_BODY};
ghost use Rattle.mot_suffixes.specs.Types.{SuffixType};

use crate::getting::name_of;
use disk_store::OpenFault;
use mot_files::{ReadFailure, System, read_file};
use mot_numbers::Refusal;
use mot_objects::{Body, Carousel, Command, Item, MAX_BODY};
use mot_suffixes::FileTypes;
use std::alloc::Global;
use std::io::Write;

/// What words are.
#[derive(Drop)]
pub(crate) enum Words {
    /// Paths of files that are put, typed by these suffixes.
    Files(FileTypes),
    /// Names of objects that are withdrawn.
    Objects,
}

/// The command that a word asks for, or why it is refused; prints more of that to `errors`.
pub(crate) fn request_of<Y: System, E: Write>(
    system: &mut Y,
    alloc: Global,
    words: &Words,
    carousel: &Carousel,
    word: &str,
    errors: &mut E,
) -> Result<Command, Refusal>
    ensures { IsRequest words.now word.now carousel.now result
        (Y.calls system.old) (Y.calls system.new) }
{
    match words {
        Words::Files(types) => file_request(system, alloc, types, carousel, word, errors),
        Words::Objects => match name_of(alloc, word.as_bytes()) {
            Ok(name) => Ok(Command::Withdraw { name }),
            Err(refusal) => Err(refuse(errors, word, refusal)),
        },
    }
}

/// The command that puts the file at the path, or replaces the object of its name.
fn file_request<Y: System, E: Write>(
    system: &mut Y,
    alloc: Global,
    types: &FileTypes,
    carousel: &Carousel,
    path: &str,
    errors: &mut E,
) -> Result<Command, Refusal>
    ensures { IsRequest (Files types.now) path.now carousel.now result
        (Y.calls system.old) (Y.calls system.new) }
{
    let name = base_name(path.as_bytes());
    let Some(file_type) = types.of_name(name) else {
        return Err(refuse(errors, path, Refusal::BadType));
    };
    let name = match name_of(alloc, name) {
        Ok(name) => name,
        Err(refusal) => return Err(refuse(errors, path, refusal)),
    };
    let Ok(mime) = file_type.mime.clone() else {
        return Err(refuse(errors, path, Refusal::OutOfMemory));
    };
    let place = carousel.place_of(&name);
    let body = body_of_file(system, alloc, path, errors)?;
    let item = Item {
        name,
        content: file_type.content,
        mime,
        body,
    };
    Ok(put_at(place, item))
}

/// What follows the last `/` of a path; all of it, if there is none.
pub(crate) fn base_name(path: &[u8]) -> &[u8]
    ensures { result.now ≡ base_name path.now }
{
    let mut found = path;
    let mut rest = path;
    while let Some((byte, others)) = rest.split_first() {
        if *byte == b'/' {
            found = others;
        }
        rest = others;
    }
    found
}

/// The bytes of the file at the path, as a body.
fn body_of_file<Y: System, E: Write>(
    system: &mut Y,
    alloc: Global,
    path: &str,
    errors: &mut E,
) -> Result<Body, Refusal>
    ensures { MatchResult result
        (λ body. IsRead path.now MAX_BODY true body (Y.calls system.old) (Y.calls system.new)
        × (body ≢ []))
        (λ refusal. ((unread : ReadFailure) × (refusal ≡ unread_refusal unread)
        × IsUnread path.now MAX_BODY true unread (Y.calls system.old) (Y.calls system.new))
        ⊎ ((refusal ≡ EmptyBody)
        × IsRead path.now MAX_BODY true [] (Y.calls system.old) (Y.calls system.new))) }
{
    match read_file(system, alloc, path, u64::from(MAX_BODY), true) {
        Ok(bytes) => Body::new(bytes),
        Err(unread) => Err(refuse_unread(errors, path, unread)),
    }
}

/// The command that puts an object, or replaces the one of its name at a place.
fn put_at(place: Option<usize>, item: Item) -> Command
    ensures { (type : SuffixType) → item.content ≡ type.content → item.mime ≡ type.mime
        → result ≡ put_at place item.name type item.body }
{
    match place {
        Some(_) => item.into_replace(),
        None => item.into_put(),
    }
}

/// Prints why a word is refused with this.
fn refuse<E: Write>(errors: &mut E, word: &str, refusal: Refusal) -> Refusal
    ensures { result ≡ refusal }
{
    let why = match refusal {
        Refusal::BadName => "no object can have this name",
        Refusal::BadType => "unknown suffix",
        Refusal::OutOfMemory => "out of memory",
        _ => "no regular file, or it changed while it was read",
    };
    let _ = writeln!(errors, "motcar: {word}: {why}");
    refusal
}

/// Prints why a file was not read; what it is refused with.
fn refuse_unread<E: Write>(errors: &mut E, path: &str, unread: ReadFailure) -> Refusal
    ensures { result ≡ unread_refusal unread }
{
    match unread {
        ReadFailure::TooLong(length) => {
            let _ = writeln!(errors, "motcar: {path}: {length} bytes, 262144 at most");
            Refusal::BodyTooLong
        }
        ReadFailure::System(fault) => {
            let fault = OpenFault::System(fault.error());
            let _ = writeln!(errors, "motcar: {path}: {fault}");
            Refusal::ReadFault
        }
        ReadFailure::NoMemory => refuse(errors, path, Refusal::OutOfMemory),
        ReadFailure::Young | ReadFailure::Changed => refuse(errors, path, Refusal::ReadFault),
    }
}
