//! The bytes of a segment.
ghost use Rattle.std.specs.Prelude.{◌≡◌, ℕ, ◌≤◌, ◌<◌, List, length};
ghost use Rattle.mot_numbers.specs.declared.numbers.TheConstants.{MAX_SEGMENT};

use mot_numbers::{MAX_SEGMENT, Refusal};
use std::marker::Model;

/// The bytes of one segment, 1 to 8,189 (EN 301 234).
#[derive(Drop)]
pub struct SegmentBytes {
    bytes: Vec<u8>,
}

impl Model for SegmentBytes {
    ghost Value = { List ℕ };

    ghost view = { λ s. s.bytes.items };

    ghost invariant = { λ s. (0 < length s.bytes.items) × (length s.bytes.items ≤ MAX_SEGMENT) };
}

impl SegmentBytes {
    ghost use Rattle.mot_groups.specs.SegmentBytes.{segment_of_bytes};

    /// These bytes. None are `EmptyBody`, more than 8,189 are `BodyTooLong`.
    pub fn new(bytes: Vec<u8>) -> Result<Self, Refusal>
        ensures { result ≡ segment_of_bytes bytes.items }
    {
        if bytes.is_empty() {
            return Err(Refusal::EmptyBody);
        }
        if bytes.len() > usize::from(MAX_SEGMENT) {
            return Err(Refusal::BodyTooLong);
        }
        Ok(SegmentBytes { bytes })
    }

    /// The bytes.
    pub fn as_slice(&self) -> &[u8]
        ensures value { result.now ≡ self.now }
        ensures some { 0 < length self.now }
        ensures short { length self.now ≤ MAX_SEGMENT }
    {
        self.bytes.as_slice()
    }
}
