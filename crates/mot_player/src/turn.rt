//! What a turn plays.
ghost use Rattle.std.specs.Prelude.{◌≡◌, ℕ, ◌+◌, ◌<◌, ◌≤◌, List, length, map, vec_len, IfOk, IfErr};
ghost use Rattle.mot_numbers.specs.declared.refusal.Refusal.TheVariants.{OutOfMemory};
ghost use Rattle.mot_objects.specs.declared.body.TheConstants.{MAX_BODY};
ghost use Rattle.mot_directory.specs.Entries.{HasAnother};
ghost use Rattle.mot_objects.specs.Stands.{AreBodiesOf, carousel_of};
ghost use Rattle.mot_objects.specs.declared.object.Object.{Object};
ghost use Rattle.mot_player.specs.declared.planned_body.PlannedBody.{PlannedBody};

use crate::course::Waiting;
use crate::difference::{Difference, difference_between};
use crate::newest::newest;
use crate::planned_body::PlannedBody;
use mot_directory::{directory_bytes, replaced_directory};
use mot_numbers::{Refusal, SegmentSize, TransportId};
use mot_objects::{Carousel, Object};
use std::alloc::{AllocError, Global};
use std::marker::Model;

/// One playing of a carousel: the directory's transport id and bytes, and each body's transport id
/// and length.
#[derive(Drop)]
pub struct Turn {
    tid: TransportId,
    directory: Vec<u8>,
    bodies: Vec<PlannedBody>,
}

impl Model for Turn {
    ghost use Rattle.mot_player.specs.PlayerView.{TurnPlan};

    ghost Value = { TurnPlan };

    ghost use Rattle.mot_player.specs.Start.{plan_of};

    ghost view = { plan_of };

    ghost use Rattle.mot_player.specs.Inner.Entities.{IsPlannable};

    ghost invariant = { λ turn. IsPlannable (plan_of turn) };
}

impl Turn {
    ghost use Rattle.mot_player.specs.PlayerView.{AreBodiesFor};
    ghost use Rattle.mot_player.specs.Inner.Entities.{IsPlannable, entity_length};
    ghost use Rattle.mot_player.specs.PlayerView.{turn_with};
    ghost use Rattle.mot_player.specs.Inner.Entities.{entity_tid};
    ghost use Rattle.mot_player.specs.Turn.{IsTurnOf, turn_of_carousel};
    ghost use Rattle.mot_player.specs.Inner.Difference.{difference_from};
    ghost use Rattle.mot_player.specs.Inner.Newest.{first_from, ids_of};
    ghost use Rattle.mot_player.specs.Start.{is_new};

    /// The turn of a carousel, in segments of this size. The only refusal is `OutOfMemory`.
    pub fn of(
        alloc: Global,
        carousel: &Carousel,
        segment_size: SegmentSize,
    ) -> Result<Turn, Refusal>
        // Whatever the bodies, it is the carousel's turn with them.
        ensures bodies { IfOk result (λ turn. (bodies : List (List ℕ))
            → AreBodiesOf carousel.now bodies → AreBodiesFor turn bodies) }
        ensures turn { IfOk result (λ turn. (bodies : List (List ℕ))
            → AreBodiesOf carousel.now bodies
            → IsTurnOf (turn_with turn bodies) (carousel_of carousel.now bodies) segment_size) }
        ensures exact { IfOk result (λ turn. (bodies : List (List ℕ))
            → AreBodiesOf carousel.now bodies → turn_with turn bodies
            ≡ turn_of_carousel (carousel_of carousel.now bodies) segment_size) }
        ensures refused { IfErr result (λ refusal. refusal ≡ OutOfMemory) }
    {
        let directory = directory_bytes(alloc, carousel, segment_size)?;
        let bodies = planned_bodies(alloc, &carousel.objects)?;
        Ok(Turn {
            tid: carousel.directory,
            directory,
            bodies,
        })
    }

    /// The turn of a carousel, as `of` gives it, if this one's directory has the same entries but for
    /// that of the object at this place. The only refusal is `OutOfMemory`.
    pub(crate) fn replaced(
        &self,
        alloc: Global,
        carousel: &Carousel,
        place: usize,
        segment_size: SegmentSize,
    ) -> Result<Turn, Refusal>
        requires within { place < vec_len carousel.now.objects }
        requires another { (bodies : List (List ℕ)) × AreBodiesOf carousel.now bodies
            × HasAnother self.now.directory (carousel_of carousel.now bodies) place }
        ensures bodies { IfOk result (λ turn. (bodies : List (List ℕ))
            → AreBodiesOf carousel.now bodies → AreBodiesFor turn bodies) }
        ensures turn { IfOk result (λ turn. (bodies : List (List ℕ))
            → AreBodiesOf carousel.now bodies
            → IsTurnOf (turn_with turn bodies) (carousel_of carousel.now bodies) segment_size) }
        ensures exact { IfOk result (λ turn. (bodies : List (List ℕ))
            → AreBodiesOf carousel.now bodies → turn_with turn bodies
            ≡ turn_of_carousel (carousel_of carousel.now bodies) segment_size) }
        ensures refused { IfErr result (λ refusal. refusal ≡ OutOfMemory) }
    {
        let directory = replaced_directory(alloc, &self.directory, carousel, place, segment_size)?;
        let bodies = planned_bodies(alloc, &carousel.objects)?;
        Ok(Turn {
            tid: carousel.directory,
            directory,
            bodies,
        })
    }

    /// How many entities it has: the directory and the bodies.
    pub(crate) fn entity_count(&self) -> usize
        ensures count { result ≡ length self.now.bodies + 1 }
        ensures plannable { IsPlannable self.now }
    {
        self.bodies.len() + 1
    }

    /// The transport id of an entity.
    pub(crate) fn entity_tid(&self, entity: usize) -> TransportId
        requires { entity < length self.now.bodies + 1 }
        ensures { result ≡ entity_tid self.now entity }
    {
        if entity == 0 {
            self.tid
        } else {
            self.bodies[entity - 1].tid
        }
    }

    /// How many bytes an entity has.
    pub(crate) fn entity_length(&self, entity: usize) -> usize
        requires { entity < length self.now.bodies + 1 }
        ensures value { result ≡ entity_length self.now entity }
        ensures range { (1 ≤ result) × (result ≤ MAX_BODY) }
    {
        if entity == 0 {
            self.directory.len()
        } else {
            self.bodies[entity - 1].length
        }
    }

    /// The one change between its bodies and those of the next turn; `None` if there were more.
    pub(crate) fn difference(&self, next: &Turn) -> Option<Difference>
        ensures { result ≡ difference_from 1 self.now.bodies next.now.bodies }
    {
        difference_between(&self.bodies, &next.bodies)
    }

    /// Its newest bodies, at most so many, each from its first segment on. `cursor` is the transport
    /// id that was taken last.
    pub(crate) fn newest(
        &self,
        alloc: Global,
        cursor: TransportId,
        most: usize,
    ) -> Result<Vec<Waiting>, AllocError>
        ensures newest { IfOk result (λ queue. queue.items
            ≡ first_from (is_new most cursor (ids_of self.now.bodies)) most 1 self.now.bodies) }
        ensures plannable { IsPlannable self.now }
    {
        newest(alloc, &self.bodies, cursor, most)
    }

    /// The directory's bytes.
    pub(crate) fn directory(&self) -> &[u8]
        ensures { result.now ≡ self.now.directory }
    {
        self.directory.as_slice()
    }
}

/// What is planned of each object's body, in the objects' order.
fn planned_bodies(alloc: Global, objects: &[Object]) -> Result<Vec<PlannedBody>, AllocError>
    ensures tids { IfOk result (λ bodies. map (λ (b : PlannedBody). b.tid) bodies.items
        ≡ map (λ (o : Object). o.tid) objects.now) }
    ensures lengths { IfOk result (λ bodies. map (λ (b : PlannedBody). b.length) bodies.items
        ≡ map (λ (o : Object). o.length) objects.now) }
    ensures count { IfOk result (λ bodies. vec_len bodies ≡ length objects.now) }
{
    let mut bodies = Vec::with_capacity(alloc, objects.len())?;
    for object in objects {
        bodies.push_reserved(PlannedBody::of(object));
    }
    Ok(bodies)
}
