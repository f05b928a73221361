//! The bytes of a disk in memory: what a read gives, which positions are loose, and what the last
//! sync left.
ghost use Rattle.std.specs.Prelude.{◌≡◌, ◌+◌, ◌<◌, ◌≤◌, length, false, replicate, IfSome, All};
ghost use Rattle.disk_store.specs.Content.{at_start, after_write, after_touch, after_sync, IsCrash};
ghost use Rattle.disk_store.specs.Content.{Content, after_overwrite, after_mark};

use std::alloc::Global;

/// What a disk in memory holds.
#[derive(Drop)]
pub struct Cells {
    /// The bytes that a read gives.
    pub bytes: Vec<u8>,
    /// Which of them a write touched since the last sync that succeeded.
    pub loose: Vec<bool>,
    /// The bytes at the last sync that succeeded, or the first ones.
    pub synced: Vec<u8>,
    ghost loose_len: { length loose.items ≡ length bytes.items },
    ghost synced_len: { length synced.items ≡ length bytes.items },
    ghost are_bytes: { All (λ b. b < 256) bytes.items },
}

impl Cells {
    ghost use Rattle.disk_store.specs.Cells.{content_of_cells};

    /// These bytes, all of them synced; `None` if memory runs out.
    pub fn holding(alloc: Global, bytes: Vec<u8>) -> Option<Self>
        ensures { IfSome result (λ cells. content_of_cells cells ≡ at_start bytes.items) }
    {
        let synced = bytes.to_vec(alloc).ok()?;
        let loose = vec![in alloc; false; bytes.len()].ok()?;
        Some(Cells {
            bytes,
            loose,
            synced,
        })
    }

    /// Writes these bytes from a position on.
    pub fn write(&mut self, at: usize, new: &[u8])
        requires { at + length new.now ≤ length self.old.bytes.items }
        ensures { content_of_cells self.new ≡ after_write at new.now (content_of_cells self.old) }
    {
        overwrite(&mut self.bytes, at, new);
        mark(&mut self.loose, at, new.len());
    }

    /// A write of n bytes from a position on that failed: the old bytes are read.
    pub fn touch(&mut self, at: usize, n: usize)
        requires { at + n ≤ length self.old.bytes.items }
        ensures { content_of_cells self.new ≡ after_touch at n (content_of_cells self.old) }
    {
        mark(&mut self.loose, at, n);
    }

    /// Makes what is read firm.
    pub fn sync(&mut self)
        ensures { content_of_cells self.new ≡ after_sync (content_of_cells self.old) }
    {
        unmark(&mut self.loose);
        self.synced.copy_from_slice(&self.bytes);
    }

    /// The bytes that a crash leaves by these choices; `None` if memory runs out.
    pub fn crash(&self, alloc: Global, choices: &[u8]) -> Option<Vec<u8>>
        ensures { IfSome result (λ image. IsCrash choices.now (content_of_cells self.now) image.items) }
    {
        let mut image = self.bytes.to_vec(alloc).ok()?;
        tear(&mut image, &self.loose, &self.synced, choices);
        Some(image)
    }
}

/// Writes these bytes from a position on.
pub(super) fn overwrite(bytes: &mut Vec<u8>, at: usize, new: &[u8])
    requires { at + length new.now ≤ length bytes.old.items }
    ensures bytes { bytes.new.items ≡ after_overwrite at new.now bytes.old.items }
    ensures len { length bytes.new.items ≡ length bytes.old.items }
    ensures are_bytes { All (λ b. b < 256) bytes.new.items }
{
    bytes[at..at + new.len()].copy_from_slice(new);
}

/// Marks n positions.
fn mark(loose: &mut Vec<bool>, at: usize, n: usize)
    requires { at + n ≤ length loose.old.items }
    ensures marked { loose.new.items ≡ after_mark at n loose.old.items }
    ensures len { length loose.new.items ≡ length loose.old.items }
{
    loose[at..at + n].fill(true);
}

/// Marks no position.
fn unmark(loose: &mut Vec<bool>)
    ensures unmarked { loose.new.items ≡ replicate (length loose.old.items) false }
    ensures len { length loose.new.items ≡ length loose.old.items }
{
    loose.fill(false);
}

/// Puts the byte that a crash leaves at each loose position.
fn tear(image: &mut [u8], loose: &[bool], synced: &[u8], choices: &[u8])
    requires loose { length loose.now ≡ length image.old }
    requires synced { length synced.now ≡ length image.old }
    ensures { let before : Content = record {
      bytes = image.old;
      loose = loose.now;
      synced = synced.now;
    } in
        IsCrash choices.now before image.new }
{
    let mut before: usize = 0;
    for k in 0..image.len() {
        if loose[k] {
            image[k] = if choices.is_empty() {
                synced[k]
            } else {
                choices[before % choices.len()]
            };
            before += 1;
        }
    }
}
