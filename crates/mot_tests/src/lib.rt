//! The tests of the layers that stand on a disk, at their public calls: what no clause says and no row
//! of the built program shows.
#![tactic(auto)]

#[cfg(test)]
mod copies;
#[cfg(test)]
mod disks;
#[cfg(test)]
mod expecting;
#[cfg(test)]
mod files;
#[cfg(test)]
mod folder;
#[cfg(test)]
mod gaps;
#[cfg(test)]
mod journal;
#[cfg(test)]
mod lives;
#[cfg(test)]
mod looks;
#[cfg(test)]
mod memory;
#[cfg(test)]
mod memory_faults;
#[cfg(test)]
mod memory_folder;
#[cfg(test)]
mod objects;
#[cfg(test)]
mod reads;
#[cfg(test)]
mod receiver;
#[cfg(test)]
mod refusals;
#[cfg(test)]
mod serving;
#[cfg(test)]
mod stops;
