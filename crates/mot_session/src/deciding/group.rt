//! The packets of a `raw` line.
ghost use Rattle.std.specs.Prelude.{◌≡◌, IfOk};
ghost use Rattle.mot_groups.specs.Group.{bytes_of_group};
ghost use Rattle.mot_session.specs.Session.{raw_group};

use mot_groups::write_group;
use mot_lines::SegmentBytes;
use mot_numbers::{GroupKind, TransportId};
use std::alloc::{AllocError, Global};

/// The data group of one segment (EN 300 401, clause 5.3.3; EN 301 234).
pub(crate) fn group_of(
    alloc: Global,
    kind: GroupKind,
    tid: TransportId,
    body: &SegmentBytes,
) -> Result<Vec<u8>, AllocError>
    ensures { IfOk result (λ group. group.items ≡ bytes_of_group (raw_group kind tid body.now)) }
{
    let body = body.as_slice();
    let mut group = Vec::with_capacity(alloc, body.len() + 11)?;
    write_group(&mut group, kind, 0, tid, 0, true, body);
    Ok(group)
}
