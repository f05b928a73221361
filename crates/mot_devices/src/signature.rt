//! The signatures of file systems and partition tables.
ghost use Rattle.std.specs.Prelude.{◌≡◌, ◌≤◌};
ghost use Rattle.std.specs.Prelude.{length};
ghost use Rattle.mot_devices.specs.Signatures.{bytes_of, has_at, signature_among, signature_in};
ghost use Rattle.mot_devices.specs.Signatures.{start_of};

use thiserror::Error;

/// What the first bytes of a device say that it has.
#[derive(Clone, Copy, Debug, PartialEq, Eq, Error)]
pub enum Signature {
    /// A file system ext2, ext3 or ext4.
    #[error("it has a file system (ext2, ext3 or ext4)")]
    Ext,
    /// A file system XFS.
    #[error("it has a file system (XFS)")]
    Xfs,
    /// A file system btrfs.
    #[error("it has a file system (btrfs)")]
    Btrfs,
    /// A swap.
    #[error("it is a swap")]
    Swap,
    /// An encrypted volume.
    #[error("it is an encrypted volume (LUKS)")]
    Luks,
    /// A physical volume of LVM.
    #[error("it is a physical volume of LVM")]
    Lvm,
    /// A member of a RAID.
    #[error("it is a member of a RAID")]
    Raid,
    /// A file system squashfs.
    #[error("it has a file system (squashfs)")]
    Squashfs,
    /// A file system ISO 9660.
    #[error("it has a file system (ISO 9660)")]
    Iso9660,
    /// A partition table GPT.
    #[error("it has a partition table (GPT)")]
    Gpt,
    /// A partition table MBR, or a file system FAT or NTFS.
    #[error("it has a partition table or a file system (MBR, FAT or NTFS)")]
    BootSector,
}

/// The bytes with which a disk of ours begins.
const OURS: &[u8] = b"MOTCAR01";

/// All that are known, in the order in which they are looked for.
const KNOWN: [Signature; 11] = [
    Signature::Ext,
    Signature::Xfs,
    Signature::Btrfs,
    Signature::Swap,
    Signature::Luks,
    Signature::Lvm,
    Signature::Raid,
    Signature::Squashfs,
    Signature::Iso9660,
    Signature::Gpt,
    Signature::BootSector,
];

impl Signature {
    /// Where it stands, and its bytes.
    fn row(self) -> (usize, &'static [u8])
        ensures start { result.0 ≡ start_of self }
        ensures bytes { result.1.now ≡ bytes_of self }
        ensures small { result.0 ≤ 65600 }
    {
        match self {
            Signature::Ext => (1_080, b"\x53\xef"),
            Signature::Xfs => (0, b"XFSB"),
            Signature::Btrfs => (65_600, b"_BHRfS_M"),
            Signature::Swap => (4_086, b"SWAPSPACE2"),
            Signature::Luks => (0, b"LUKS\xba\xbe"),
            Signature::Lvm => (512, b"LABELONE"),
            Signature::Raid => (4_096, b"\xfc\x4e\x2b\xa9"),
            Signature::Squashfs => (0, b"hsqs"),
            Signature::Iso9660 => (32_769, b"CD001"),
            Signature::Gpt => (512, b"EFI PART"),
            Signature::BootSector => (510, b"\x55\xaa"),
        }
    }
}

/// The first of the known signatures that the first bytes of a device have. Only what is whole
/// within them is found, and nothing where a disk of ours begins.
pub fn signature_of(head: &[u8]) -> Option<Signature>
    ensures { result ≡ signature_in head.now }
{
    if has_at(head, 0, OURS) {
        return None;
    }
    find_among(&KNOWN, head)
}

/// The first of these signatures that they have.
fn find_among(signatures: &[Signature], head: &[u8]) -> Option<Signature>
    ensures { result ≡ signature_among head.now signatures.now }
{
    let mut rest = signatures;
    while let Some((signature, others)) = rest.split_first() {
        let (start, bytes) = signature.row();
        if has_at(head, start, bytes) {
            return Some(*signature);
        }
        rest = others;
    }
    None
}

/// Whether these bytes stand there.
fn has_at(head: &[u8], start: usize, bytes: &[u8]) -> bool
    requires { start ≤ 65600 }
    ensures { result ≡ has_at head.now start bytes.now }
{
    start + bytes.len() <= head.len() && &head[start..start + bytes.len()] == bytes
}
