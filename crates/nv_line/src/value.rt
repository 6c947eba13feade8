//! The values on a command line: numbers, lists of controllers, flags and formats.

ghost use Rattle.std.specs.Prelude.{◌≡◌, ◌≤◌, IfOk, option_and_then};
ghost use Rattle.clap.specs.Words.{found_of, rows_of};
ghost use Rattle.nv_line.specs.inner.OptionName.{IsSound};
ghost use Rattle.nv_line.specs.Values.{digits_of, flag_in, format_in, list_in, list_option_in};
ghost use Rattle.nv_line.specs.Values.{number_in, number_option_in, decimal_number, within};

use crate::clap_rule::text_of;
use crate::device::Device;
use crate::fault::LineFault;
use crate::option::{FlagOption, FormatOption, ListOption, NumberOption};
use crate::output_format::OutputFormat;
use clap::ArgMatches;
use nv_layout::{ControllerIds, CtrlList, MOST_CNTLIDS};

/// Returns the number that is written in digits of a base.
fn digits(text: &str, base: u32) -> Option<u64>
    requires low { 2 ≤ base }
    requires high { base ≤ 16 }
    ensures { result ≡ option_and_then (within 0 u64.MAX) (digits_of base text.now) }
{
    let bytes = text.as_bytes();
    if !bytes.is_empty() && bytes[0] == b'+' {
        return None;
    }
    u64::from_str_radix(text, base).ok()
}

/// Returns a number from `least` to `most`, which is written in decimal, in hexadecimal after `0x`
/// or `0X`, or in octal after `0`, and without a sign.
#[tactic(auto, using(std::proofs::lemmas::Str::lead_after_ascii))]
pub fn parse_number(text: &str, least: u64, most: u64) -> Option<u64>
    ensures { result ≡ number_in least most text.now }
{
    let bytes = text.as_bytes();
    let value = if bytes.len() < 2 || bytes[0] != b'0' {
        digits(text, 10)
    } else if bytes[1] == b'x' || bytes[1] == b'X' {
        digits(&text[2..], 16)
    } else {
        digits(&text[1..], 8)
    };
    value.filter(|value| least <= *value && *value <= most)
}

/// Returns a number from `least` to `most`, which is written in decimal and without leading zeros.
pub(crate) fn decimal(text: &str, least: u64, most: u64) -> Option<u64>
    ensures { result ≡ option_and_then (within least most) (decimal_number text.now) }
{
    let bytes = text.as_bytes();
    if bytes.len() > 1 && bytes[0] == b'0' {
        return None;
    }
    digits(text, 10).filter(|value| least <= *value && *value <= most)
}

/// Returns the identifiers that a text lists: at most 2,047 numbers of 16 bits, separated by
/// commas. They are written to `place`, whose contents don't matter before. Section "Controller
/// List".
pub(crate) fn parse_list<'a>(text: &str, place: &'a mut CtrlList) -> Option<ControllerIds<'a>>
    ensures { result ≡ list_in text.now }
{
    place.clear();
    for piece in text.split(',') {
        if place.len() == MOST_CNTLIDS {
            return None;
        }
        let Some(identifier) = parse_number(piece, 0, u16::MAX as u64) else {
            return None;
        };
        place.push(identifier as u16);
    }
    Some(place.ids())
}

/// Returns the number of an option, or its default if it isn't given.
pub(crate) fn read_number(
    matches: &ArgMatches<'_>,
    option: NumberOption,
    device: Device,
) -> Result<u64, LineFault>
    requires { IsSound option }
    ensures value { result ≡ number_option_in (rows_of (found_of matches.now)) option device }
    ensures in_range { IfOk result (λ n. (option.least ≤ n) × (n ≤ option.most)) }
{
    match text_of(matches, option.name.text()) {
        Some(text) => parse_number(text, option.least, option.most).ok_or(LineFault::Number(
            option.name,
        )),
        None => match device.nsid {
            Some(nsid) if option.takes_path => Ok(u64::from(nsid)),
            _ => option.default.ok_or(LineFault::Usage),
        },
    }
}

/// Returns the controller identifiers of an option. They are written to `place`, whose contents
/// don't matter before.
pub(crate) fn read_list<'a>(
    matches: &ArgMatches<'_>,
    option: ListOption,
    place: &'a mut CtrlList,
) -> Result<ControllerIds<'a>, LineFault>
    ensures { result ≡ list_option_in (rows_of (found_of matches.now)) option }
{
    match text_of(matches, option.name.text()) {
        Some(text) => parse_list(text, place).ok_or(LineFault::Number(option.name)),
        None => Err(LineFault::Usage),
    }
}

/// Returns whether a flag is given.
pub(crate) fn is_set(matches: &ArgMatches<'_>, flag: FlagOption) -> bool
    ensures { result ≡ flag_in (rows_of (found_of matches.now)) flag }
{
    match text_of(matches, flag.name.text()) {
        Some(text) => text == "true",
        None => false,
    }
}

/// Returns the format of the answer, which is text unless the line says otherwise.
pub(crate) fn read_format(
    matches: &ArgMatches<'_>,
    option: FormatOption,
) -> Result<OutputFormat, LineFault>
    ensures { result ≡ format_in (rows_of (found_of matches.now)) option }
{
    match text_of(matches, option.name.text()) {
        Some(name) => OutputFormat::of(name).ok_or(LineFault::Usage),
        None => Ok(OutputFormat::Normal),
    }
}
