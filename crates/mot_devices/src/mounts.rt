//! Where a device is mounted, by the text of `/proc/self/mountinfo`.
ghost use Rattle.std.specs.Prelude.{◌≡◌, ℕ, IfNone, IfSome, List, None, Some, bytes_eq};
ghost use Rattle.std.specs.List.{list_any};
ghost use Rattle.mot_devices.specs.Mounts.{is_one_of, mount_in, place_of_line, parts_of};

use crate::number::Numbers;
use crate::parts::cut;

/// Where a line of this text says first that one of these devices is mounted.
pub(crate) fn find_mount<'a>(numbers: &Numbers, mounts: &'a [u8]) -> Option<&'a [u8]>
    ensures found { IfSome result (λ place.
        mount_in numbers.now.own.items numbers.now.others.items mounts.now ≡ Some place.now) }
    ensures none { IfNone result
        (mount_in numbers.now.own.items numbers.now.others.items mounts.now ≡ None) }
{
    let mut rest = mounts;
    while let Some((line, others)) = cut(b'\n', rest) {
        if let Some(place) = place_in(numbers, line) {
            return Some(place);
        }
        rest = others;
    }
    None
}

/// Where a line says that one of these devices is mounted, if it says so.
fn place_in<'a>(numbers: &Numbers, line: &'a [u8]) -> Option<&'a [u8]>
    ensures found { IfSome result (λ place.
        place_of_line numbers.now.own.items numbers.now.others.items line.now ≡ Some place.now) }
    ensures none { IfNone result
        (place_of_line numbers.now.own.items numbers.now.others.items line.now ≡ None) }
{
    let (_, behind_id) = cut(b' ', line)?;
    let (_, behind_parent) = cut(b' ', behind_id)?;
    let (number, behind_number) = cut(b' ', behind_parent)?;
    let (_, behind_root) = cut(b' ', behind_number)?;
    let (place, _) = cut(b' ', behind_root)?;
    if !numbers.has(number) {
        return None;
    }
    Some(place)
}

/// Whether it is one of the lines of a text.
pub(crate) fn is_line_of(lines: &[u8], wanted: &[u8]) -> bool
    ensures { result ≡ list_any (λ (line : List ℕ). bytes_eq line wanted.now) (parts_of 10 lines.now) }
{
    let mut rest = lines;
    while let Some((line, others)) = cut(b'\n', rest) {
        if line == wanted {
            return true;
        }
        rest = others;
    }
    false
}
