//! Bytes that are moved.
ghost use Rattle.std.specs.Prelude.{◌≤◌, length};

use std::alloc::AllocError;

/// Copies as many of these bytes as fit into the room, but no more than `most`.
pub(crate) fn give(bytes: &[u8], most: usize, room: &mut [u8]) -> usize
    ensures { result ≤ length room.new }
{
    let count = bytes.len().min(most).min(room.len());
    room[..count].copy_from_slice(&bytes[..count]);
    count
}

/// The first of these bytes.
pub(crate) fn first(bytes: &[u8], count: usize) -> &[u8] {
    match bytes.get(..count) {
        Some(part) => part,
        None => bytes,
    }
}

/// What is left of these bytes after the first of them.
pub(crate) fn rest_of(bytes: &[u8], at: usize) -> &[u8] {
    match bytes.get(at..) {
        Some(rest) => rest,
        None => &[],
    }
}

/// Puts these bytes at a position, after zeros if there are too few before it.
pub(crate) fn put_at(all: &mut Vec<u8>, at: usize, bytes: &[u8]) -> Result<(), AllocError> {
    let end = at.saturating_add(bytes.len());
    if all.len() < end {
        all.resize(end, 0)?;
    }
    for (k, byte) in bytes.iter().enumerate() {
        if let Some(cell) = all.get_mut(at.wrapping_add(k)) {
            *cell = *byte;
        }
    }
    Ok(())
}

/// Marks so many at a position, and all that are added.
pub(crate) fn mark_at(all: &mut Vec<bool>, at: usize, count: usize) -> Result<(), AllocError> {
    let end = at.saturating_add(count);
    if all.len() < end {
        all.resize(end, true)?;
    }
    for k in 0..count {
        if let Some(cell) = all.get_mut(at.wrapping_add(k)) {
            *cell = true;
        }
    }
    Ok(())
}
