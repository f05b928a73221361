//! Where in the data area a new body goes.
ghost use Rattle.std.specs.Prelude.{◌≡◌, ◌+◌, ◌<◌, ◌≤◌, ◌^◌, ℕ, true};
ghost use Rattle.mot_carousel.specs.Gap.{IsLongestGap, is_free, least_gap};

/// The least start in a data area of `data_len` bytes from which `len` bytes lie in the area and
/// meet no extent (start, length); `None` if no gap holds them. The extents may stand in any order;
/// if they stand by their starts, one pass is enough. It takes no memory.
pub fn first_fit(extents: &[(u32, u32)], len: u32, data_len: u32) -> Option<u32>
    ensures { result ≡ least_gap extents.now len data_len }
{
    let mut start: u64 = 0;
    while start + u64::from(len) <= u64::from(data_len) {
        let (above, beyond) = raised(extents, start, len);
        let end = above + u64::from(len);
        if end <= beyond && end <= u64::from(data_len) {
            return Some(above as u32);
        }
        start = above;
    }
    None
}

/// The most bytes that lie in one piece in a data area of `data_len` bytes and meet no extent. It
/// takes no memory.
pub fn longest_gap(extents: &[(u32, u32)], data_len: u32) -> u32
    ensures { IsLongestGap extents.now data_len result }
{
    let mut fits: u64 = 0;
    let mut above = u64::from(data_len) + 1;
    while fits + 1 < above {
        let middle = fits + (above - fits) / 2;
        match first_fit(extents, middle as u32, data_len) {
            Some(_) => fits = middle,
            None => above = middle,
        }
    }
    fits as u32
}

/// The start, raised past each extent that `len` bytes from it on meet, in one pass, and the least
/// start of those that lay beyond. No free start lies below the first, and it is free if the bytes
/// from it on end before the second.
fn raised(extents: &[(u32, u32)], start: u64, len: u32) -> (u64, u64)
    requires low { start < 2 ^ 33 }
    ensures least { start ≤ result.0 }
    ensures low { result.0 < 2 ^ 33 }
    ensures rises { result.0 ≡ start → start + len ≤ result.1 }
    ensures free { result.0 + len ≤ result.1 → is_free extents.now len result.0 ≡ true }
    ensures next { (k : ℕ) → start ≤ k → is_free extents.now len k ≡ true → result.0 ≤ k }
{
    let mut above = start;
    let mut beyond = u64::MAX;
    for (from, length) in extents {
        let begin = u64::from(*from);
        let end = begin + u64::from(*length);
        if above + u64::from(len) <= begin {
            beyond = beyond.min(begin);
        } else if end > above {
            above = end;
        }
    }
    (above, beyond)
}

/// Whether `len` bytes from `start` on meet no extent.
pub fn is_clear(extents: &[(u32, u32)], start: u64, len: u32) -> bool
    ensures { result ≡ is_free extents.now len start }
{
    for (from, size) in extents {
        let end = u64::from(*from) + u64::from(*size);
        if start.saturating_add(u64::from(len)) > u64::from(*from) && end > start {
            return false;
        }
    }
    true
}
