//! The numbers of the command line.
ghost use Rattle.std.specs.Prelude.{◌≡◌};
ghost use Rattle.clap.specs.Words.{found_of, rows_of};
ghost use Rattle.mot_cli.specs.Options.{AreGiven, GiveDirectory, GiveGeometry, GiveLastId};
ghost use Rattle.mot_cli.specs.Options.{field_in};
ghost use Rattle.mot_cli.specs.Inner.{Finds};

use crate::given::number_of;
use clap::ArgMatches;
use mot_numbers::{Geometry, TransportId};

/// The numbers that the words of the command line give.
#[derive(Clone, Copy, Debug, PartialEq, Eq)]
pub struct Options {
    /// `--objects`.
    pub objects: Option<u32>,
    /// `--data`.
    pub data_area: Option<u32>,
    /// `--segment`.
    pub segment: Option<u32>,
    /// `--address`.
    pub address: Option<u32>,
    /// `--packet`.
    pub packet: Option<u32>,
}

impl Options {
    ghost use Rattle.mot_cli.specs.Options.{geometry_asked, geometry_over};

    /// The geometry of these numbers, with the default for each that is not given; `None` if one
    /// does not fit its field.
    pub fn geometry(self) -> Option<Geometry>
        ensures { result ≡ geometry_asked self }
    {
        self.over(&Geometry::default())
    }

    /// The geometry of these numbers, with that of `base` for each that is not given; `None` if one
    /// does not fit its field.
    #[tactic(auto, unfolding(crate::specs::Options::geometry_over))]
    pub fn over(self, base: &Geometry) -> Option<Geometry>
        ensures { result ≡ geometry_over base.now self }
    {
        Some(Geometry {
            objects: field(self.objects, base.objects)?,
            segment: field(self.segment, base.segment)?,
            address: field(self.address, base.address)?,
            packet: field(self.packet, base.packet)?,
            area: self.data_area.unwrap_or(base.area),
        })
    }
}

/// The number, if it fits; the default, if none is given.
fn field(number: Option<u32>, default: u16) -> Option<u16>
    ensures { result ≡ field_in number default }
{
    match number {
        Some(number) => u16::try_from(number).ok(),
        None => Some(default),
    }
}

/// The geometry that the words give; `None` if a number does not fit its field.
#[tactic(auto, using(crate::proofs::Unasked::no_geometry))]
pub(crate) fn geometry_of(matches: &ArgMatches<'_>) -> Option<Geometry>
    ensures { Finds (GiveGeometry (rows_of (found_of matches.now))) result }
{
    options_of(matches)?.geometry()
}

/// The transport id of a new disk's directory: the one after the id that the words give, or else
/// the first; `None` if the word is not a number, or fits no id.
pub(crate) fn directory_of(matches: &ArgMatches<'_>) -> Option<TransportId>
    ensures { Finds (GiveDirectory (rows_of (found_of matches.now))) result }
{
    let after = field(number_of(matches, "after")?, 0)?;
    // After the last id comes the first.
    TransportId::new(after % 65_535 + 1)
}

/// The transport id after which those of a copy go on, if the words give one; `None` if the word is
/// not a number, or fits no id.
pub(crate) fn last_id_of(matches: &ArgMatches<'_>) -> Option<Option<TransportId>>
    ensures { Finds (GiveLastId (rows_of (found_of matches.now))) result }
{
    Some(match number_of(matches, "after")? {
        Some(0) => TransportId::new(65_535),
        Some(number) => Some(TransportId::new(u16::try_from(number).ok()?)?),
        None => None,
    })
}

/// The numbers of the options that were given; `None` if a word is not a number.
pub(crate) fn options_of(matches: &ArgMatches<'_>) -> Option<Options>
    ensures { Finds (AreGiven (rows_of (found_of matches.now))) result }
{
    Some(Options {
        objects: number_of(matches, "objects")?,
        data_area: number_of(matches, "data")?,
        segment: number_of(matches, "segment")?,
        address: number_of(matches, "address")?,
        packet: number_of(matches, "packet")?,
    })
}
