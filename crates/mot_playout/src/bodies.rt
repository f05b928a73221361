//! The bodies that a repository keeps on its disk, for the player to read.
ghost use Rattle.mot_playout.specs.Inner.{bodies_on, HasRead, unread};

use disk_model::Disk;
use mot_numbers::Refusal;
use mot_player::Bodies;
use mot_repository::Repository;

/// The bodies of a repository. Each read of a part of one is one read of the disk.
#[derive(Drop)]
pub(crate) struct DiskBodies<D: Disk> {
    pub repository: Repository<D>,
}

impl<D: Disk> Bodies for DiskBodies<D> {
    ghost bodies = { λ kept. bodies_on kept.repository.view.journal.geometry
        kept.repository.view.extents (D.state kept.repository.disk).bytes };

    ghost IsHonest = { λ kept. (D.state kept.repository.disk).IsHonest };

    ghost failures = { λ kept. (D.state kept.repository.disk).failures };

    ghost HasOnlyRead = { λ old new. HasRead old.repository.view new.repository.view
        (D.state old.repository.disk) (D.state new.repository.disk) };

    ghost unread = { λ kept. unread kept.repository.view (D.state kept.repository.disk) };

    fn count(&self) -> usize {
        self.repository.body_count()
    }

    fn length(&self, body: usize) -> usize {
        self.repository.body_length(body) as usize
    }

    fn read(&mut self, body: usize, from: usize, out: &mut [u8]) -> Result<(), Refusal> {
        self.repository.read_body(body, from, out)
    }
}
