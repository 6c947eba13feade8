//! Why a line can't be read.

use clap::ArgMatches;
use clap::error::ErrorKind;
use nv_layout::CtrlList;
use nv_line::{
    CommandOption, LINE_LIMIT, LineFault, OptionName, OutputFormat, VERBS, Verb, clap_command,
    read_line, split_words,
};
use std::alloc::{AllocError, Global};
use strsim::jaro;

/// Returns the fault of a line and its reason, or nothing if the line can be read for a subsystem
/// with this many controllers.
pub fn fault_in(
    alloc: Global,
    line: &[u8],
    controllers: u16,
) -> Result<Option<String>, AllocError> {
    let line = match line.split_last() {
        Some((b'\n', rest)) => rest,
        _ => line,
    };
    let mut place = CtrlList::new();
    let fault = match read_line(alloc, line, controllers, &mut place) {
        Ok(_) => return Ok(None),
        Err(LineFault::Memory) => return Err(AllocError),
        Err(fault) => fault,
    };
    let reason = match str::from_utf8(line) {
        _ if line.len() > LINE_LIMIT => {
            format!(in alloc;
                "it has {} bytes, and the limit is {LINE_LIMIT}",
                line.len()
            )?
        }
        Err(error) => {
            let byte = error.valid_up_to().saturating_add(1);
            format!(in alloc; "byte {byte} is the first wrong one")?
        }
        Ok(text) => {
            let words = split_words(alloc, text)?;
            reason_of(alloc, without_program(words.as_slice()), controllers, fault)?
        }
    };
    Ok(Some(format!(in alloc; "{fault}: {reason}")?))
}

/// Returns the words without a first word `nvme`.
fn without_program<'a>(words: &'a [&'a str]) -> &'a [&'a str] {
    if !words.is_empty() && words[0] == "nvme" {
        return &words[1..];
    }
    words
}

/// Returns the reason of a fault that the words of a line have.
fn reason_of<'a>(
    alloc: Global,
    words: &'a [&'a str],
    controllers: u16,
    fault: LineFault,
) -> Result<String, AllocError> {
    if words.is_empty() {
        return String::from_str(alloc, "there is no command");
    }
    let Some(verb) = Verb::of(words[0]) else {
        return unknown_command(alloc, words[0]);
    };
    let command = clap_command(alloc, verb)?;
    match command.try_get_matches_from(words) {
        Err(error) if error.kind() == ErrorKind::OutOfMemory => Err(AllocError),
        Err(error) => {
            let text = format!(in alloc; "{error}")?;
            let mut reason = words_of_clap(alloc, &text)?;
            if error.kind() == ErrorKind::UnknownArgument && !reason.contains("; tip:") {
                push_options(&mut reason, verb)?;
            }
            Ok(reason)
        }
        Ok(matches) => match fault {
            LineFault::Number(option) => wrong_value(alloc, verb, option, &matches),
            LineFault::Device => unknown_device(alloc, controllers, &matches),
            _ => missing_or_unknown(alloc, &matches),
        },
    }
}

/// Returns what an error of `clap` says in one line, without its usage, and of its tips only a name
/// that is like the one that was given.
fn words_of_clap(alloc: Global, text: &str) -> Result<String, AllocError> {
    let mut words = String::new(alloc);
    for line in text.lines() {
        let line = line.trim();
        if line.starts_with("Usage:") {
            break;
        }
        if line.is_empty() || line.starts_with("tip: to pass") {
            continue;
        }
        if !words.is_empty() {
            words.push_str(if line.starts_with("tip:") { "; " } else { " " })?;
        }
        words.push_str(line.strip_prefix("error: ").unwrap_or(line))?;
    }
    Ok(words)
}

/// Names the options of a command.
fn push_options(text: &mut String, verb: Verb) -> Result<(), AllocError> {
    let mut before = "; its options: --";
    for option in verb.options() {
        let name = match option {
            CommandOption::Flag(flag) => flag.name,
            CommandOption::Number(number) => number.name,
            CommandOption::List(list) => list.name,
            CommandOption::Format(format) => format.name,
        };
        write!(text, "{before}{name}")?;
        before = ", --";
    }
    Ok(())
}

/// Names the command that is most like a word, if one is.
fn unknown_command(alloc: Global, word: &str) -> Result<String, AllocError> {
    let mut nearest = None;
    let mut most = 0.7;
    for verb in VERBS {
        let likeness = jaro(alloc, word, verb.word())?;
        if likeness > most {
            nearest = Some(verb);
            most = likeness;
        }
    }
    match nearest {
        Some(verb) => {
            let name = verb.word();
            format!(in alloc; "there is no command '{word}'; the nearest is '{name}'")
        }
        None => format!(in alloc; "there is no command '{word}'"),
    }
}

fn unknown_device(
    alloc: Global,
    controllers: u16,
    matches: &ArgMatches<'_>,
) -> Result<String, AllocError> {
    let device = matches.get_str("device").unwrap_or("");
    if controllers == 1 {
        return format!(in alloc;
            "'{device}' is neither the controller, /dev/nvme0, nor a namespace of it, such as \
            /dev/nvme0n1"
        );
    }
    let last = controllers.saturating_sub(1);
    format!(in alloc;
        "'{device}' is neither a controller, /dev/nvme0 to /dev/nvme{last}, nor a namespace of \
        one, such as /dev/nvme0n1"
    )
}

/// Names what is wrong where `clap` finds nothing: the output format, or else that there is no NSID.
fn missing_or_unknown(alloc: Global, matches: &ArgMatches<'_>) -> Result<String, AllocError> {
    match matches.get_str("output-format") {
        Some(format) if OutputFormat::of(format).is_none() => {
            format!(in alloc; "'{format}' is neither 'normal' nor 'json'")
        }
        _ => {
            let device = matches.get_str("device").unwrap_or("");
            format!(in alloc; "--namespace-id is missing, and '{device}' names no namespace")
        }
    }
}

/// Shows the value of an option, and which ones it takes.
fn wrong_value(
    alloc: Global,
    verb: Verb,
    option: OptionName,
    matches: &ArgMatches<'_>,
) -> Result<String, AllocError> {
    let name = format!(in alloc; "{option}")?;
    let value = matches.get_str(&name).unwrap_or("");
    for row in verb.options() {
        if let CommandOption::Number(number) = row
            && number.name == option
        {
            let (least, most) = (number.least, number.most);
            return format!(in alloc; "'{value}' isn't a number from {least} to {most}");
        }
    }
    format!(in alloc; "'{value}' isn't a list of controller identifiers, such as 0,1")
}
