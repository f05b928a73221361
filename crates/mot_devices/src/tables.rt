//! What the system tells of a device where it can: its partitions, the swaps, what stands on it.
#![tactic(auto, using(crate::proofs::Looks::looks_on, crate::proofs::Looks::looks_one, crate::proofs::Looks::looks_none))]

ghost use Rattle.std.specs.Prelude.{◌≡◌, IfOk, OnOk, option_map, take, true};
ghost use Rattle.mot_files.specs.Listing.{path_in};
ghost use Rattle.mot_files.specs.declared.system.How.TheVariants as How;
ghost use Rattle.mot_devices.specs.Inner.{TellsHolder};
ghost use Rattle.mot_devices.specs.Looking.{IsTold, OnlyLooks};
ghost use Rattle.mot_files.specs.Looking.{reads_only};
ghost use Rattle.mot_devices.specs.Tables.{number_text, AddPartitions, AddsPartition, AreSwapLines};
ghost use Rattle.mot_devices.specs.Tables.{HasPartitions, IsSwap, IsSwapLine, first_shown};
ghost use Rattle.mot_devices.specs.Tables.{short_bytes};
ghost use Rattle.mot_devices.specs.Mounts.{parts_of};
ghost use Rattle.mot_devices.specs.declared.short_name.TheConstants.{LONGEST};

use crate::number::{Numbers, number_text};
use crate::parts::cut;
use crate::reading::{NotRead, read_first};
use crate::short_name::ShortName;
use mot_files::{How, System, path_in};
use std::alloc::{AllocError, Global};
use std::str::from_utf8;

/// The most bytes of a table or of the names of a folder.
pub const MOST_OF_TABLE: usize = 1 << 20;

/// The folder that has a link for each block device, by its number, to the folder of that.
const FOLDER: &str = "/sys/dev/block";

/// The bytes of a table of the system, or its first ones; none if the system does not give them.
fn read_table<S: System>(
    system: &mut S,
    alloc: Global,
    path: &str,
    how: How,
) -> Result<Vec<u8>, AllocError>
    requires { reads_only how ≡ true }
    ensures looks { OnlyLooks (S.calls system.old) (S.calls system.new) }
    ensures told { IfOk result (λ bytes. IsTold path.now how bytes.items (S.calls system.old)
        (S.calls system.new)) }
{
    match read_first(system, alloc, path, how, MOST_OF_TABLE) {
        Ok(first) => Ok(first.bytes),
        Err(NotRead::Refused(_)) => Ok(Vec::new(alloc)),
        Err(NotRead::NoMemory) => Err(AllocError),
    }
}

/// The number of the device and those of its partitions, as far as the system tells them.
pub(crate) fn numbers_of<S: System>(
    system: &mut S,
    alloc: Global,
    number: u64,
) -> Result<Numbers, AllocError>
    ensures looks { OnlyLooks (S.calls system.old) (S.calls system.new) }
    ensures own { IfOk result (λ numbers. numbers.own.items ≡ number_text number) }
    ensures others { IfOk result (λ numbers. HasPartitions number numbers.others.items
        (S.calls system.old) (S.calls system.new)) }
{
    let text = number_text(alloc, number)?;
    let link = path_in(alloc, FOLDER, text.as_str())?;
    let folder = path_in(alloc, link.as_str(), ".")?;
    let names = read_table(system, alloc, folder.as_str(), How::Folder)?;
    let mut others = Vec::new(alloc);
    add_partitions(system, alloc, folder.as_str(), &names, &mut others)?;
    Ok(Numbers {
        own: text.into_bytes(),
        others,
    })
}

/// Adds the numbers of the partitions among these names in the folder of a device.
fn add_partitions<S: System>(
    system: &mut S,
    alloc: Global,
    folder: &str,
    names: &[u8],
    others: &mut Vec<u8>,
) -> Result<(), AllocError>
    ensures looks { OnlyLooks (S.calls system.old) (S.calls system.new) }
    ensures added { OnOk result (AddPartitions folder.now (parts_of 0 names.now) others.old.items
        others.new.items (S.calls system.old) (S.calls system.new)) }
{
    let mut rest = names;
    while let Some((name, behind)) = cut(0, rest) {
        add_partition(system, alloc, folder, name, others)?;
        rest = behind;
    }
    Ok(())
}

/// Adds the number of a partition, if the name in the folder is one's.
fn add_partition<S: System>(
    system: &mut S,
    alloc: Global,
    folder: &str,
    name: &[u8],
    others: &mut Vec<u8>,
) -> Result<(), AllocError>
    ensures looks { OnlyLooks (S.calls system.old) (S.calls system.new) }
    ensures added { OnOk result (AddsPartition folder.now name.now others.old.items
        others.new.items (S.calls system.old) (S.calls system.new)) }
{
    let Ok(name) = from_utf8(name) else {
        return Ok(());
    };
    let inner = path_in(alloc, folder, name)?;
    let mark = path_in(alloc, inner.as_str(), "partition")?;
    let Ok(_) = system.look(mark.as_str()) else {
        return Ok(());
    };
    let place = path_in(alloc, inner.as_str(), "dev")?;
    let number = read_table(system, alloc, place.as_str(), How::Read)?;
    others.extend_from_slice(&number)
}

/// Whether the table of swaps has one of these devices.
pub(crate) fn is_swap<S: System>(
    system: &mut S,
    alloc: Global,
    numbers: &Numbers,
) -> Result<bool, AllocError>
    ensures looks { OnlyLooks (S.calls system.old) (S.calls system.new) }
    ensures swap { IfOk result (λ is. IsSwap numbers.now.own.items numbers.now.others.items is
        (S.calls system.old) (S.calls system.new)) }
{
    let table = read_table(system, alloc, "/proc/swaps", How::Read)?;
    has_swap(system, alloc, numbers, &table)
}

/// Whether a line of this table has one of these devices.
fn has_swap<S: System>(
    system: &mut S,
    alloc: Global,
    numbers: &Numbers,
    table: &[u8],
) -> Result<bool, AllocError>
    ensures looks { OnlyLooks (S.calls system.old) (S.calls system.new) }
    ensures swap { IfOk result (λ is. AreSwapLines numbers.now.own.items numbers.now.others.items
        (parts_of 10 table.now) is (S.calls system.old) (S.calls system.new)) }
{
    let mut rest = table;
    while let Some((line, behind)) = cut(b'\n', rest) {
        if is_swap_line(system, alloc, numbers, line)? {
            return Ok(true);
        }
        rest = behind;
    }
    Ok(false)
}

/// Whether a line of it has.
fn is_swap_line<S: System>(
    system: &mut S,
    alloc: Global,
    numbers: &Numbers,
    line: &[u8],
) -> Result<bool, AllocError>
    ensures looks { OnlyLooks (S.calls system.old) (S.calls system.new) }
    ensures swap { IfOk result (λ is. IsSwapLine numbers.now.own.items numbers.now.others.items
        line.now is (S.calls system.old) (S.calls system.new)) }
{
    let Some((path, _)) = cut(b' ', line) else {
        return Ok(false);
    };
    let Ok(path) = from_utf8(path) else {
        return Ok(false);
    };
    match system.follow(path) {
        Ok(seen) => match seen.block {
            Some(number) => Ok(numbers.has(number_text(alloc, number)?.as_bytes())),
            None => Ok(false),
        },
        Err(_) => Ok(false),
    }
}

/// The first device that stands on the device of this number.
pub(crate) fn holder_of<S: System>(
    system: &mut S,
    alloc: Global,
    number: u64,
) -> Result<Option<ShortName>, AllocError>
    ensures looks { OnlyLooks (S.calls system.old) (S.calls system.new) }
    ensures held { IfOk result (λ name. TellsHolder number name (S.calls system.old)
        (S.calls system.new)) }
{
    let text = number_text(alloc, number)?;
    let folder = path_in(alloc, FOLDER, text.as_str())?;
    let holders = path_in(alloc, folder.as_str(), "holders")?;
    let names = read_table(system, alloc, holders.as_str(), How::Folder)?;
    Ok(first_name(&names))
}

/// The first of the names, each ended by a zero byte, that does not begin with a dot.
fn first_name(names: &[u8]) -> Option<ShortName>
    ensures { option_map short_bytes result
        ≡ option_map (take LONGEST) (first_shown (parts_of 0 names.now)) }
{
    let mut rest = names;
    while let Some((name, behind)) = cut(0, rest) {
        if !name.starts_with(b".") {
            return Some(ShortName::of(name));
        }
        rest = behind;
    }
    None
}
