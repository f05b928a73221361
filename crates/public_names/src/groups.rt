//! Checksums, data groups and transport ids.
use crate::expecting::expect;
use mot_base::{GroupKind, Refusal, SegmentSize, TransportId, crc16};
use mot_carousel::free_id;
use mot_groups::{segment_count, write_group};
use std::alloc::Global;
use std::test::Fail;

#[test]
fn checksums_of_known_bytes(rt: HostRuntime) {
    let rows: [(&[u8], u16); 3] = [(b"123456789", 0xD64E), (b"", 0), (&[0], 0x1E0F)];
    for (bytes, checksum) in rows {
        expect(&rt, crc16(bytes), checksum);
    }
}

// How many segments of so many bytes an entity of this length has.
fn count_of(len: usize, size: u16) -> Option<usize> {
    match SegmentSize::new(size) {
        Some(size) => Some(segment_count(len, size)),
        None => None,
    }
}

#[test]
fn segments_of_an_entity(rt: HostRuntime) {
    let rows = [
        (64, 64, 1),
        (65, 64, 2),
        (262_144, 64, 4_096),
        (8_190, 8_189, 2),
    ];
    for (len, size, count) in rows {
        expect(&rt, count_of(len, size), Some(count));
    }
}

// A group of this kind, index, transport id and number of its segment, the last one or not.
fn group_of(
    alloc: Global,
    kind: GroupKind,
    numbers: (u8, u16, u16),
    is_last: bool,
    segment: &[u8],
) -> Result<Vec<u8>, Refusal> {
    let (index, id, number) = numbers;
    let id = TransportId::new(id).ok_or(Refusal::BadNumber)?;
    if index >= 16 || number >= 32_768 || segment.is_empty() || segment.len() > 8_189 {
        return Err(Refusal::BadNumber);
    }
    let mut group = Vec::with_capacity(alloc, segment.len() + 11)?;
    write_group(&mut group, kind, index, id, number, is_last, segment);
    Ok(group)
}

#[test]
fn groups_of_two_segments_and_a_directory(rt: HostRuntime) -> Result<(), Fail> {
    let alloc = rt.alloc();
    let first = group_of(alloc, GroupKind::Body, (0, 2, 0), false, &[7; 64])?;
    expect(
        &rt,
        first.starts_with(&[0x74, 0, 0, 0, 0x12, 0, 2, 0, 0x40, 7]),
        true,
    );
    expect(&rt, first.len(), 75);
    let last = group_of(alloc, GroupKind::Body, (0, 2, 1), true, b"A")?;
    expect(
        &rt,
        last.starts_with(&[0x74, 0, 0x80, 1, 0x12, 0, 2, 0, 1, 0x41]),
        true,
    );
    let directory = group_of(alloc, GroupKind::Directory, (5, 3, 0), true, b"A")?;
    expect(
        &rt,
        directory.starts_with(&[0x76, 0x50, 0x80, 0, 0x12, 0, 3, 0, 1, 0x41]),
        true,
    );
    Ok(())
}

// The id after this one.
fn next_id(id: TransportId) -> TransportId {
    match id.get().checked_add(1) {
        Some(next) => TransportId::new(next).unwrap_or(TransportId::FIRST),
        None => TransportId::FIRST,
    }
}

// So many ids after this one, but for one of them.
fn ids_behind(
    alloc: Global,
    cursor: TransportId,
    count: u16,
    but: u16,
) -> Result<Vec<TransportId>, Refusal> {
    let mut ids = Vec::new(alloc);
    let mut id = cursor;
    for _ in 0..count {
        id = next_id(id);
        if id.get() != but {
            ids.push(id)?;
        }
    }
    Ok(ids)
}

// The id that is taken after this one, where so many after it are used, but for one of them.
fn taken_behind(alloc: Global, cursor: u16, count: u16, but: u16) -> Result<u16, Refusal> {
    let cursor = TransportId::new(cursor).ok_or(Refusal::BadNumber)?;
    let used = ids_behind(alloc, cursor, count, but)?;
    if used.len() >= 65_535 {
        return Err(Refusal::BadNumber);
    }
    Ok(free_id(cursor, &used).get())
}

#[test]
fn the_one_free_id_is_taken(rt: HostRuntime) {
    let all = 65_535;
    let rows = [
        (65_409, 250, 7, 7),
        (65_409, 250, 65_535, 65_535),
        (65_409, 250, 200, 125),
        (65_535, 250, 250, 250),
        (65_535, 250, 251, 251),
        (3, all, 7, 7),
        (7, all, 7, 7),
        (8, all, 7, 7),
    ];
    for (cursor, count, but, taken) in rows {
        expect(&rt, taken_behind(rt.alloc(), cursor, count, but), Ok(taken));
    }
}
