//! The commands for `clap`, each of which is made once, and what `clap` finds in a command line.

ghost use Rattle.std.specs.Prelude.{◌≡◌, ◌<◌, IfOk, false, get_or, length, map, option_map};
ghost use Rattle.clap.specs.Words.{app_of, first_of, found_of, rows_of, rule_of};
ghost use Rattle.nv_line.specs.ClapRule.{IsMade, app_for, option_rule, rows_of_words};
ghost use Rattle.nv_layout.specs.UnlessMemory.{IsUnlessMemory};
ghost use Rattle.nv_line.specs.declared.verb.Verb.{Verb};

use crate::fault::LineFault;
use crate::option::CommandOption;
use crate::verb::Verb;
use clap::error::ErrorKind;
use clap::{Arg, ArgAction, ArgMatches, Command};
use std::alloc::{AllocError, Global};
use std::marker::Model;

/// Returns the `clap` argument of an option. A flag takes no value, and any other option takes one.
fn option_arg<'a>(alloc: Global, option: CommandOption) -> Arg<'a>
    ensures rule { rule_of result ≡ option_rule option }
    ensures own { result.global ≡ false }
{
    let (name, letter, action, is_required) = match option {
        CommandOption::Flag(flag) => (flag.name, flag.letter, ArgAction::SetTrue, false),
        CommandOption::List(list) => (list.name, list.letter, ArgAction::Set, true),
        CommandOption::Format(format) => (format.name, format.letter, ArgAction::Set, false),
        CommandOption::Number(number) => {
            let has_fallback = number.takes_path || number.default.is_some();
            (number.name, number.letter, ArgAction::Set, !has_fallback)
        }
    };
    let name = name.text();
    Arg::new(alloc, name)
        .long(name)
        .short(letter)
        .action(action)
        .required(is_required)
}

/// Returns the `clap` command of a command word with its options. All but `list` take a device, and
/// none has an option for help. It is called only when a command word first occurs, so that the code
/// that reads each line is small.
#[inline(never)]
pub fn clap_command<'a>(alloc: Global, verb: Verb) -> Result<Command<'a>, AllocError>
    ensures { IfOk result (λ c. app_of c ≡ app_for verb) }
{
    let mut command = Command::new(alloc, verb.word()).disable_help_flag(true);
    if let Verb::Of(_) = verb {
        command = command.arg(Arg::new(alloc, "device").required(true))?;
    }
    let options = verb.options();
    for option in options {
        command = command.arg(option_arg(alloc, *option))?;
    }
    Ok(command)
}

/// The `clap` command of a command word, which can be used many times.
#[derive(Drop)]
struct MadeCommand<'a> {
    verb: Verb,
    command: Command<'a>,
}

/// The `clap` commands of the command words that have occurred. Each is made once.
#[derive(Drop)]
pub struct MadeCommands<'a> {
    alloc: Global,
    made: Vec<MadeCommand<'a>>,
}

impl<'a> Model for MadeCommands<'a> {
    ghost use Rattle.std.specs.Prelude.{All, List, map};
    ghost use Rattle.nv_line.specs.ClapRule.{IsMade};
    ghost use Rattle.nv_line.specs.declared.verb.Verb.{Verb};

    /// The command words that have occurred.
    ghost Value = { List Verb };

    ghost view = { λ s. map (λ c. c.verb) s.made.items };

    ghost invariant = { λ s. All IsMade s.made.items };
}

impl<'a> MadeCommands<'a> {
    pub(crate) fn new(alloc: Global) -> MadeCommands<'a> {
        MadeCommands {
            alloc,
            made: Vec::new(alloc),
        }
    }

    /// Returns the index of a command word's command, which is made if it doesn't exist yet.
    #[tactic(auto, using(crate::proofs::ClapRules::made_more))]
    fn index_of(&mut self, verb: Verb) -> Result<usize, AllocError>
        ensures index { IfOk result (λ n. n < length self.new) }
        ensures verb { IfOk result (λ n. (d : Verb) → get_or self.new n d ≡ verb) }
    {
        for index in 0..self.made.len() {
            if self.made[index].verb == verb {
                return Ok(index);
            }
        }
        let command = clap_command(self.alloc, verb)?;
        self.made.push(MadeCommand { verb, command })?;
        Ok(self.made.len() - 1)
    }

    /// Returns what `clap` finds in the words, of which the first is this command word. A command
    /// that failed for lack of memory fails for that reason from then on.
    pub(crate) fn matches(
        &mut self,
        verb: Verb,
        words: &'a [&'a str],
    ) -> Result<ArgMatches<'a>, LineFault>
        ensures { IsUnlessMemory LineFault.Memory (λ m. rows_of (found_of m)) result
            (rows_of_words verb (map (λ w. w.now) words.entry.now)) }
    {
        let index = self.index_of(verb)?;
        match self.made[index].command.try_get_matches_from_mut(words) {
            Ok(matches) => Ok(matches),
            Err(error) => match error.kind() {
                ErrorKind::OutOfMemory => Err(LineFault::Memory),
                _ => Err(LineFault::Usage),
            },
        }
    }
}

/// Returns the text that was given for an argument.
#[inline(always)]
pub(crate) fn text_of<'a>(matches: &ArgMatches<'a>, id: &str) -> Option<&'a str>
    ensures { option_map (λ s. s.now) result ≡ first_of id.now (rows_of (found_of matches.now)) }
{
    matches.get_str(id)
}
