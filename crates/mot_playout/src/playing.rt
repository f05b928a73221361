//! The player of what a repository keeps.
ghost use Rattle.std.specs.Prelude.{◌≡◌, ◌<◌, List, ℕ, IfOk, IfErr, IfSome, is_some, length, true};
ghost use Rattle.std.specs.Prelude.{vec_len};
ghost use Rattle.mot_directory.specs.Entries.{HasAnother};
ghost use Rattle.mot_numbers.specs.Geometry.{packet_room};
ghost use Rattle.mot_numbers.specs.declared.refusal.Refusal.TheVariants.{OutOfMemory};
ghost use Rattle.mot_objects.specs.Stands.{AreBodiesOf, carousel_of};
ghost use Rattle.mot_player.specs.Place.{opened_place};
ghost use Rattle.mot_player.specs.PlayerView.{PlayerView, place_of};
ghost use Rattle.mot_player.specs.Turn.{turn_of_carousel};
ghost use Rattle.mot_playout.specs.Inner.{PlaysCarousel, replaced_in};

use disk_model::Disk;
use mot_numbers::Refusal;
use mot_objects::{Carousel, Command};
use mot_player::{Player, Spare, Turn};
use mot_repository::Repository;
use std::alloc::Global;

/// A player of the repository's carousel, with nothing begun. The only refusal is `OutOfMemory`.
pub(crate) fn player_of<D: Disk>(
    alloc: Global,
    repository: &Repository<D>,
) -> Result<Player, Refusal>
    ensures plays { IfOk result (λ player. PlaysCarousel repository.now.view.carousel
        repository.now.view.journal.geometry.segment player) }
    ensures opened { IfOk result (λ player. (bodies : List (List ℕ))
        → AreBodiesOf repository.now.view.carousel bodies → place_of player bodies
        ≡ opened_place repository.now.view.journal.geometry.address
        (packet_room repository.now.view.journal.geometry)
        repository.now.view.journal.geometry.segment
        (turn_of_carousel (carousel_of repository.now.view.carousel bodies)
        repository.now.view.journal.geometry.segment)) }
    ensures refused { IfErr result (λ refusal. refusal ≡ OutOfMemory) }
{
    let geometry = repository.geometry();
    let size = geometry.size_of_segments();
    let turn = Turn::of(alloc, repository.carousel(), size)?;
    let address = geometry.address_of_packets();
    let length = geometry.length_of_packets();
    Player::new(alloc, address, length, size, turn)
}

/// The place of the object that a command has replaced; `None` after a command of another kind.
pub(crate) fn replaced_place(command: &Command, next: &Carousel) -> Option<usize>
    ensures place { result ≡ replaced_in command.now next.now }
    ensures within { IfSome result (λ place. place < vec_len next.now.objects) }
{
    match command {
        Command::Replace { name, .. } => next.place_of(name),
        _ => None,
    }
}

/// The turn of a carousel that comes next, and the room that the player takes to follow it. Where
/// the object at a place alone was replaced, the other entries of its directory are those of the
/// turn that is played. The only refusal is `OutOfMemory`.
pub(crate) fn turn_to_follow(
    alloc: Global,
    player: &Player,
    next: &Carousel,
    replaced: Option<usize>,
) -> Result<(Turn, Spare), Refusal>
    requires within { IfSome replaced (λ place. place < vec_len next.now.objects) }
    requires another { IfSome replaced (λ place. (bodies : List (List ℕ))
        × AreBodiesOf next.now bodies
        × HasAnother player.now.turn.directory (carousel_of next.now bodies) place) }
    ensures plays { IfOk result (λ ready. (view : PlayerView) → view.turn ≡ ready.0
        → view.segment_size ≡ player.now.segment_size
        → PlaysCarousel next.now player.now.segment_size view) }
    ensures room { IfOk result (λ ready. is_some player.now.follows ≡ true
        → length player.now.course.queue < ready.1) }
    ensures refused { IfErr result (λ refusal. refusal ≡ OutOfMemory) }
{
    let turn = match replaced {
        Some(place) => player.replaced_turn(alloc, next, place)?,
        None => Turn::of(alloc, next, player.segment_size())?,
    };
    let spare = player.spare(alloc)?;
    Ok((turn, spare))
}
