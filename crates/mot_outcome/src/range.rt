//! The numbers that options take, in words.
use crate::Subject;
use clap::ArgMatches;

/// The numbers that an option takes: from the least to the most, the multiples of a step; and how
/// they are told.
type Range = (&'static str, u32, u32, u32, &'static str);

const RANGES: [Range; 8] = [
    ("objects", 1, 250, 1, "1 to 250"),
    ("data", 1, 268_435_456, 1, "1 to 268435456"),
    ("segment", 64, 8_189, 1, "64 to 8189"),
    ("address", 1, 1_023, 1, "1 to 1023"),
    ("packet", 24, 96, 24, "24, 48, 72 or 96"),
    ("after", 0, 65_535, 1, "0 to 65535"),
    ("rate", 8, 1_824, 8, "a multiple of 8, 8 to 1824"),
    ("max-age", 1, 86_400, 1, "1 to 86400"),
];

/// The numbers that this option takes, in words.
pub(crate) fn range_of(option: &str) -> &'static str {
    for (name, _, _, _, range) in RANGES {
        if name == option {
            return range;
        }
    }
    ""
}

/// The first option that has a number out of its range.
pub(crate) fn number_out_of_range<'a>(words: &ArgMatches<'a>) -> Subject<'a> {
    for (option, least, most, step, range) in RANGES {
        if let Some(number) = words.get_str(option)
            && !is_within(number, least, most, step)
        {
            return Subject::Number {
                option,
                number,
                range,
            };
        }
    }
    Subject::Nothing
}

/// Whether the text is a number from the least to the most, and a multiple of the step.
fn is_within(text: &str, least: u32, most: u32, step: u32) -> bool {
    match text.parse::<u32>() {
        Ok(number) => number >= least && number <= most && number.is_multiple_of(step),
        Err(_) => false,
    }
}
