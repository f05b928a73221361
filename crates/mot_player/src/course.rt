//! Which segments of a turn come next.
ghost use Rattle.std.specs.Prelude.{◌≡◌, ◌^◌, ◌<◌, ◌≤◌, vec_capacity, vec_len, length};
ghost use Rattle.std.specs.Prelude.{None, OnSome, Some, true};

use crate::Turn;
use crate::difference::Difference;
use crate::following::{entities_not_begun, fresh, keep, rest_from};
use crate::part::Part;
use std::alloc::Global;

/// Segments of an entity of a turn, from one of them on.
#[derive(Clone, Copy)]
pub(crate) struct Waiting {
    pub entity: usize,
    pub segment: usize,
}

/// What waits of a turn, in this order: the directory, from a segment on; what is queued; and the
/// bodies from one of them on. The directory is entity 0.
#[derive(Drop)]
pub(crate) struct Course {
    pub directory: Option<usize>,
    pub queue: Vec<Waiting>,
    /// How many of the queue were sent.
    pub at: usize,
    pub entity: usize,
    pub segment: usize,
    ghost within: { at ≤ vec_len queue },
}

impl Course {
    ghost use Rattle.mot_player.specs.Course.{course_of};
    ghost use Rattle.mot_player.specs.Inner.Course.{changed_course, due_of, ended_course, followed};
    ghost use Rattle.mot_player.specs.Inner.Course.{has_ended, heard_course, left_course, passed};
    ghost use Rattle.mot_player.specs.Inner.Course.{whole_course};

    /// Nothing waits of a turn of so many entities.
    pub fn ended(alloc: Global, entity_count: usize) -> Self
        ensures course { course_of result ≡ ended_course entity_count }
    {
        Course {
            directory: None,
            queue: Vec::new(alloc),
            at: 0,
            entity: entity_count,
            segment: 0,
        }
    }

    /// The whole turn waits.
    pub fn begin_turn(&mut self)
        ensures course { course_of self.new ≡ whole_course }
    {
        self.directory = Some(0);
        self.at = self.queue.len();
        self.entity = 1;
        self.segment = 0;
    }

    /// The whole turn waits, and what is queued here before its bodies.
    pub fn begin_with(&mut self, queue: Vec<Waiting>)
        ensures course { course_of self.new ≡ record whole_course { queue = queue.items } }
    {
        self.begin_turn();
        self.at = 0;
        self.queue = queue;
    }

    /// Whether nothing waits of a turn of so many entities.
    pub fn has_ended(&self, entity_count: usize) -> bool
        ensures value { result ≡ has_ended entity_count (course_of self.now) }
    {
        match self.directory {
            Some(_) => false,
            None => self.at == self.queue.len() && self.entity == entity_count,
        }
    }

    /// The directory comes next, and whole, if anything waits.
    pub fn hear_directory(&mut self, entity_count: usize)
        ensures course { course_of self.new ≡ heard_course entity_count (course_of self.old) }
    {
        if !self.has_ended(entity_count) {
            self.directory = Some(0);
        }
    }

    /// The segment that is due: of which entity, and which of its segments.
    pub fn due(&self, entity_count: usize) -> Waiting
        ensures value { result ≡ due_of entity_count (course_of self.now) }
    {
        if let Some(segment) = self.directory {
            return Waiting { entity: 0, segment };
        }
        if self.at < self.queue.len() {
            return self.queue[self.at];
        }
        if self.entity == entity_count {
            return Waiting {
                entity: 0,
                segment: 0,
            };
        }
        Waiting {
            entity: self.entity,
            segment: self.segment,
        }
    }

    /// The segment that is due waits no longer.
    pub fn pass(&mut self, entity_count: usize, part: Part)
        ensures course { course_of self.new ≡ passed entity_count part (course_of self.old) }
    {
        let directory = if part.is_last {
            None
        } else {
            Some(part.next_segment)
        };
        if let Some(_) = self.directory {
            self.directory = directory;
            return;
        }
        if self.at < self.queue.len() {
            if part.is_last {
                self.at += 1;
            } else {
                self.queue[self.at] = Waiting {
                    entity: part.entity,
                    segment: part.next_segment,
                };
            }
            return;
        }
        if self.entity == entity_count {
            self.directory = directory;
            self.entity = 1;
            self.segment = 0;
            return;
        }
        self.entity = part.next_entity;
        self.segment = part.next_segment;
    }

    /// How many segments' entities are queued.
    pub fn queued(&self) -> usize
        ensures count { result ≡ length (course_of self.now).queue }
    {
        self.queue.len() - self.at
    }

    /// Another turn comes, after a turn of so many entities. If it can be followed, what is left
    /// goes on, and the body that came is queued if fewer than `most` are that are not begun; where
    /// no group is under way and nothing waits, the turn that begins is left. Else the other turn
    /// begins.
    pub fn change(
        &mut self,
        difference: Option<Difference>,
        is_idle: bool,
        most: usize,
        entity_count: usize,
        room: Vec<Waiting>,
    )
        requires empty { vec_len room ≡ 0 }
        requires room { OnSome difference
            (length (course_of self.old).queue < vec_capacity room) }
        requires within { (0 < (course_of self.old).entity)
            × ((course_of self.old).entity ≤ entity_count) }
        requires few { entity_count < 2 ^ 32 }
        ensures course { course_of self.new ≡ changed_course difference is_idle most entity_count
            (course_of self.old) }
    {
        let Some(difference) = difference else {
            return self.begin_turn();
        };
        self.begin_next(is_idle, entity_count);
        self.follow(difference, most, entity_count, room);
    }

    /// The turn begins, where no group is under way and nothing waits.
    fn begin_next(&mut self, is_idle: bool, entity_count: usize)
        ensures course { course_of self.new ≡ left_course is_idle entity_count
            (course_of self.old) }
        ensures few { length (course_of self.new).queue ≤ length (course_of self.old).queue }
        ensures within { 0 < (course_of self.old).entity
            → (course_of self.old).entity ≤ entity_count
            → (course_of self.new).entity ≤ entity_count }
    {
        if is_idle && self.has_ended(entity_count) {
            self.begin_turn();
        }
    }

    /// Goes on in a turn that differs so: its directory comes, what is queued and stays, the body
    /// that came if fewer than `most` are queued that are not begun, and then the rest. The queue is
    /// kept in the room for it.
    fn follow(
        &mut self,
        difference: Difference,
        most: usize,
        entity_count: usize,
        room: Vec<Waiting>,
    )
        requires empty { vec_len room ≡ 0 }
        requires room { length (course_of self.old).queue < vec_capacity room }
        requires within { (course_of self.old).entity ≤ entity_count }
        requires few { entity_count < 2 ^ 32 }
        ensures course { course_of self.new ≡ followed difference most entity_count
            (course_of self.old) }
    {
        let mut queue = room;
        keep(&mut queue, &self.queue.as_slice()[self.at..], difference);
        let is_queued = entities_not_begun(queue.as_slice()) < most;
        if is_queued {
            if let Some(waiting) = fresh(difference, entity_count) {
                queue.push_reserved(waiting);
            }
        }
        let here = Waiting {
            entity: self.entity,
            segment: self.segment,
        };
        let rest = rest_from(difference, is_queued, entity_count, here);
        self.directory = Some(0);
        self.at = 0;
        self.queue = queue;
        self.entity = rest.entity;
        self.segment = rest.segment;
    }
}
