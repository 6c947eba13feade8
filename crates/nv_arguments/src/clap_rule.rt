//! The program's command line for `clap`, and what `clap` finds in the arguments.

ghost use Rattle.std.specs.Prelude.{◌≡◌, IfOk, false, map, option_map};
ghost use Rattle.clap.specs.Words.{app_of, first_of, found_of, rows_of, rule_of};
ghost use Rattle.nv_arguments.specs.ArgumentOption.{name_of};
ghost use Rattle.nv_arguments.specs.ClapRule.{option_rule, program, rows_of_words};
ghost use Rattle.nv_layout.specs.UnlessMemory.{IsUnlessMemory};

use crate::fault::ArgumentsFault;
use crate::option::ArgumentOption;
use clap::error::ErrorKind;
use clap::{Arg, ArgAction, ArgMatches, Command};
use std::alloc::{AllocError, Global};

/// Returns the `clap` argument of an option.
fn option_arg<'a>(alloc: Global, option: ArgumentOption) -> Arg<'a>
    ensures rule { rule_of result ≡ option_rule option }
    ensures own { result.global ≡ false }
{
    let name = option.name();
    Arg::new(alloc, name).long(name).action(ArgAction::Set)
}

/// Returns the `clap` command of the program.
fn command_of<'a>(alloc: Global) -> Result<Command<'a>, AllocError>
    ensures { IfOk result (λ c. app_of c ≡ program) }
{
    let mut command = Command::new(alloc, "nvme-script");
    let options = ArgumentOption::all();
    for option in options {
        command = command.arg(option_arg(alloc, *option))?;
    }
    Ok(command)
}

/// Returns what `clap` finds in the words, of which the first is the program's name.
pub(crate) fn clap_matches<'a>(
    alloc: Global,
    words: &'a [&'a str],
) -> Result<ArgMatches<'a>, ArgumentsFault>
    ensures { IsUnlessMemory ArgumentsFault.Memory (λ m. rows_of (found_of m)) result
        (rows_of_words (map (λ w. w.now) words.entry.now)) }
{
    let command = command_of(alloc)?;
    match command.try_get_matches_from(words) {
        Ok(matches) => Ok(matches),
        Err(error) => match error.kind() {
            ErrorKind::OutOfMemory => Err(ArgumentsFault::Memory),
            _ => Err(ArgumentsFault::Refused),
        },
    }
}

/// Returns the text that was given for an option.
pub(crate) fn text_of<'a>(matches: &ArgMatches<'a>, option: ArgumentOption) -> Option<&'a str>
    ensures { option_map (λ s. s.now) result
        ≡ first_of (name_of option) (rows_of (found_of matches.now)) }
{
    matches.get_str(option.name())
}
