//! The source of a player's bodies.
ghost use Rattle.std.specs.Prelude.{◌≡◌, ◌+◌, ◌<◌, ◌≤◌, List, ℕ, length, map, refl, slice_range};
ghost use Rattle.std.specs.Prelude.{OnOk, IfErr};
ghost use Rattle.disk_model.specs.Disk.{HasCause};
ghost use Rattle.mot_numbers.specs.declared.refusal.Refusal.TheVariants.{DeviceFault};
ghost use Rattle.mot_player.specs.Turn.{body_at};

use mot_numbers::Refusal;
use mot_objects::Body;

/// The bodies of a carousel, in the order of its objects, wherever they are kept.
///
/// A read errs exactly if the count of failures rises in it. At the greatest `u64` the count can't
/// rise, and each read fails. Honest bodies give their bytes; of others only the lengths are known.
/// No contract can rule out that a device gives other bytes, so the result of a read has as its
/// premise that the bodies are honest after it. Honest bodies were honest before, so that premise
/// at the end of a run of reads covers each of them.
pub trait Bodies {
    /// The bodies.
    ghost bodies: { Self → List (List ℕ) };

    /// Whether each read gave the bytes so far.
    ghost IsHonest: { Self → Type 0 };

    /// How often a read has failed.
    ghost failures: { Self → ℕ };

    /// What stays, if only reads have come between the first and the second.
    ghost HasOnlyRead: { Self → Self → Type 0 };

    /// It stays if no read has come.
    ghost unread: { (kept : Self) → HasOnlyRead kept kept };

    /// How many bodies there are.
    fn count(&self) -> usize
        ensures { result ≡ length (bodies self.now) };

    /// How many bytes a body has.
    fn length(&self, body: usize) -> usize
        requires { body < length (bodies self.now) }
        ensures { result ≡ length (body_at (bodies self.now) body) };

    /// Reads the bytes of a body from a place in it on. The only refusal is `DeviceFault`.
    fn read(&mut self, body: usize, from: usize, out: &mut [u8]) -> Result<(), Refusal>
        requires body { body < length (bodies self.old) }
        requires range { from + length out.old ≤ length (body_at (bodies self.old) body) }
        ensures lengths { map length (bodies self.new) ≡ map length (bodies self.old) }
        ensures unchanged { IsHonest self.old → bodies self.new ≡ bodies self.old }
        ensures was_honest { IsHonest self.new → IsHonest self.old }
        ensures only_read { HasOnlyRead self.old self.new }
        ensures cause { HasCause (failures self.old) (failures self.new) result }
        ensures refused { IfErr result (λ refusal. refusal ≡ DeviceFault) }
        ensures bytes { IsHonest self.new → OnOk result
            (out.new ≡ slice_range (body_at (bodies self.old) body) from (from + length out.old)) }

        // Only a read that gives other bytes ends that they are honest.
        ensures honest { IsHonest self.old
            → OnOk result
            (out.new ≡ slice_range (body_at (bodies self.old) body) from (from + length out.old))
            → IsHonest self.new };
}

/// Bodies in memory, which are always honest and never fail.
impl Bodies for Vec<Body> {
    ghost bodies = { λ kept. kept.items };

    ghost IsHonest = { λ kept. Unit {0} };

    ghost failures = { λ kept. 0 };

    ghost HasOnlyRead = { λ old new. new ≡ old };

    ghost unread = { λ kept. refl };

    fn count(&self) -> usize {
        self.len()
    }

    fn length(&self, body: usize) -> usize {
        self[body].as_bytes().len()
    }

    fn read(&mut self, body: usize, from: usize, out: &mut [u8]) -> Result<(), Refusal> {
        out.copy_from_slice(&self[body].as_bytes()[from..from + out.len()]);
        Ok(())
    }
}
