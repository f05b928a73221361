//! Adding bytes to a vector that has the room.
ghost use Rattle.std.specs.Prelude.{◌≡◌, ◌+◌, ◌≤◌, ◌++◌, length, vec_len, vec_capacity};
ghost use Rattle.std.specs.Int.{to_be_bytes, w16};
ghost use Rattle.arrayvec.specs.ArrayVec.{array_vec_len};

use arrayvec::ArrayVec;
use byteorder::{BigEndian, ByteOrder};
use std::mem;

/// Adds bytes for which there is room; no memory is taken.
pub fn append(out: &mut Vec<u8>, bytes: &[u8])
    requires { vec_len out.old + length bytes.now ≤ vec_capacity out.old }
    ensures items { out.new.items ≡ out.old.items ++ bytes.now }
    ensures len { vec_len out.new ≡ vec_len out.old + length bytes.now }
    ensures capacity { vec_capacity out.new ≡ vec_capacity out.old }
{
    // A vector of this function's own: its length need not be written after each byte.
    let none = Vec::new(*out.allocator());
    let mut filled = mem::replace(out, none);
    for byte in bytes {
        filled.push_reserved(*byte);
    }
    *out = filled;
}

/// Adds a number of 16 bits, for which there is room, its high byte first; no memory is taken.
pub fn append_number(out: &mut Vec<u8>, number: u16)
    requires { vec_len out.old + 2 ≤ vec_capacity out.old }
    ensures items { out.new.items ≡ out.old.items ++ to_be_bytes w16 number }
    ensures len { vec_len out.new ≡ vec_len out.old + 2 }
    ensures capacity { vec_capacity out.new ≡ vec_capacity out.old }
{
    append(out, &bytes_of_number(number));
}

/// Adds bytes for which there is room, if the room is fixed.
pub fn array_append<const ROOM: usize>(out: &mut ArrayVec<u8, ROOM>, bytes: &[u8])
    requires { array_vec_len out.old + length bytes.now ≤ ROOM }
    ensures items { out.new.items ≡ out.old.items ++ bytes.now }
    ensures len { array_vec_len out.new ≡ array_vec_len out.old + length bytes.now }
{
    out.try_extend_from_slice(bytes).unwrap();
}

/// Adds a number of 16 bits, its high byte first, if the room is fixed.
pub fn array_append_number<const ROOM: usize>(out: &mut ArrayVec<u8, ROOM>, number: u16)
    requires { array_vec_len out.old + 2 ≤ ROOM }
    ensures items { out.new.items ≡ out.old.items ++ to_be_bytes w16 number }
    ensures len { array_vec_len out.new ≡ array_vec_len out.old + 2 }
{
    let [high, low] = number.to_be_bytes();
    out.push(high);
    out.push(low);
}

/// The two bytes of a number, its high byte first.
fn bytes_of_number(number: u16) -> [u8; 2]
    ensures { result ≡ to_be_bytes w16 number }
{
    let mut bytes = [0; 2];
    BigEndian::write_u16(&mut bytes, number);
    bytes
}
