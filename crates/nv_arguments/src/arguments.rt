//! What the arguments ask for.

ghost use Rattle.std.specs.Prelude.{◌≡◌, map};
ghost use Rattle.clap.specs.Words.{found_of, rows_of};
ghost use Rattle.nv_arguments.specs.Arguments.{arguments_of, geometry_of, number_of, chosen_by};
ghost use Rattle.nv_layout.specs.UnlessMemory.{IsUnlessMemory};

use crate::clap_rule::{clap_matches, text_of};
use crate::fault::ArgumentsFault;
use crate::option::ArgumentOption;
use clap::ArgMatches;
use nv_driver::Geometry;
use nv_line::parse_number;
use std::alloc::Global;

/// What the arguments ask for.
#[derive(Debug, Drop, PartialEq, Eq)]
pub struct Arguments<'a> {
    /// The path of the subsystem file, or none for the built-in one.
    pub subsystem: Option<&'a str>,
    /// The geometry. The driver checks its limits.
    pub geometry: Geometry,
}

/// Returns the number of an option, which is written as in a script, or `default` if the option
/// isn't given.
fn number_of(
    matches: &ArgMatches<'_>,
    option: ArgumentOption,
    default: u32,
) -> Result<u32, ArgumentsFault>
    ensures { result ≡ number_of (rows_of (found_of matches.now)) option default }
{
    match text_of(matches, option) {
        Some(text) => match parse_number(text, 0, u64::from(u32::MAX)) {
            Some(value) => Ok(value as u32),
            None => Err(ArgumentsFault::Refused),
        },
        None => Ok(default),
    }
}

/// Returns the geometry of the options.
fn geometry_of(matches: &ArgMatches<'_>) -> Result<Geometry, ArgumentsFault>
    ensures { result ≡ geometry_of (rows_of (found_of matches.now)) }
{
    let plain = Geometry::default();
    Ok(Geometry {
        depth: number_of(matches, ArgumentOption::Depth, plain.depth)?,
        page_size: number_of(matches, ArgumentOption::PageSize, plain.page_size)?,
        offset: number_of(matches, ArgumentOption::Offset, plain.offset)?,
        list_offset: number_of(matches, ArgumentOption::ListOffset, plain.list_offset)?,
        window: number_of(matches, ArgumentOption::Window, plain.window)?,
        pace: number_of(matches, ArgumentOption::Pace, plain.pace)?,
    })
}

impl<'a> Arguments<'a> {
    /// Reads the arguments. The first word is the program's name.
    pub fn read(alloc: Global, words: &'a [&'a str]) -> Result<Arguments<'a>, ArgumentsFault>
        ensures { IsUnlessMemory ArgumentsFault.Memory chosen_by result
            (arguments_of (map (λ w. w.now) words.now)) }
    {
        let matches = clap_matches(alloc, words)?;
        let geometry = geometry_of(&matches)?;
        Ok(Arguments {
            subsystem: text_of(&matches, ArgumentOption::Subsystem),
            geometry,
        })
    }
}
