//! Reading lines: their words, and what they ask for.

ghost use Rattle.std.specs.Prelude.{◌≡◌, IfOk, map, option_map, slice_get};
ghost use Rattle.nv_layout.specs.UnlessMemory.{IsUnlessMemory};
ghost use Rattle.nv_line.specs.Line.{IsKnown, NeedsNoMemory, begun, reading};
ghost use Rattle.nv_line.specs.Verb.{verb_in};
ghost use Rattle.nv_line.specs.Word.{is_skipped, without_nvme, words_of};

use crate::clap_rule::MadeCommands;
use crate::fault::LineFault;
use crate::request::{Request, read_request};
use crate::verb::Verb;
use bumpalo::Bump;
use bumpalo::collections::into_bump_slice;
use nv_layout::CtrlList;
use std::alloc::{AllocError, Allocator, Global};

/// The greatest length of a line in bytes, without its newline.
pub const LINE_LIMIT: usize = 4095;

/// The meaning of a line: nothing, or a request.
#[derive(Debug, Drop, PartialEq, Eq)]
pub enum Line<'a> {
    /// The line is blank or a comment.
    Skipped,
    /// The line asks for something.
    Request(Request<'a>),
}

/// Returns whether a line is blank, or begins with # after its spaces and tabs.
pub fn is_skipped_line(line: &[u8]) -> bool
    ensures { result ≡ is_skipped line.now }
{
    match line.iter().find(|b| !(**b == b' ' || **b == b'\t')) {
        Some(b) => *b == b'#',
        None => true,
    }
}

/// Returns the words of a line, between spaces and tabs.
pub fn split_words<'a, A: Allocator>(alloc: A, text: &'a str) -> Result<Vec<&'a str, A>, AllocError>
    ensures { IfOk result (λ v. map (λ w. w.now) v.items ≡ words_of text.now) }
{
    text.split(|c| c == ' ' || c == '\t')
        .filter(|word| !word.is_empty())
        .collect(alloc)
}

/// Returns the word of a text at an index.
fn word_at(text: &str, index: usize) -> Option<&str>
    ensures { option_map (λ w. w.now) result ≡ slice_get (words_of text.now) index }
{
    text.split(|c| c == ' ' || c == '\t')
        .filter(|word| !word.is_empty())
        .nth(index)
}

/// Returns the command of the first word of a text that isn't a first word `nvme`.
fn verb_in(text: &str) -> Option<Verb>
    ensures { result ≡ verb_in (without_nvme (words_of text.now)) }
{
    let Some(first) = word_at(text, 0) else {
        return None;
    };
    if first != "nvme" {
        return Verb::of(first);
    }
    let Some(second) = word_at(text, 1) else {
        return None;
    };
    Verb::of(second)
}

/// Returns the words without a first word `nvme`.
pub(crate) fn without_program<'a>(words: &'a [&'a str]) -> &'a [&'a str]
    ensures { map (λ w. w.now) result.now ≡ without_nvme (map (λ w. w.now) words.now) }
{
    if !words.is_empty() && words[0] == "nvme" {
        return &words[1..];
    }
    words
}

/// Reads lines one after another. The `clap` command of a command word is made when the word first
/// occurs. Copies of the lines and their words stay in `room`.
#[derive(Drop)]
pub struct LineReader<'a> {
    room: &'a Bump,
    commands: MadeCommands<'a>,
}

impl<'a> LineReader<'a> {
    /// Creates a reader that has read no line.
    pub fn new(alloc: Global, room: &'a Bump) -> LineReader<'a> {
        LineReader {
            room,
            commands: MadeCommands::new(alloc),
        }
    }

    /// Reads a line as `read_line` does.
    pub fn read<'b>(
        &mut self,
        line: &[u8],
        controllers: u16,
        place: &'b mut CtrlList,
    ) -> Result<Line<'b>, LineFault>
        ensures exact { IsUnlessMemory LineFault.Memory (λ l. l) result (reading line.now controllers) }
        ensures plain { NeedsNoMemory (begun line.now) → result ≡ reading line.now controllers }
        ensures known { IfOk result (IsKnown controllers) }
    {
        if line.len() > LINE_LIMIT {
            return Err(LineFault::TooLong);
        }
        if is_skipped_line(line) {
            return Ok(Line::Skipped);
        }
        let Ok(text) = str::from_utf8(line) else {
            return Err(LineFault::NotText);
        };
        let Some(verb) = verb_in(text) else {
            return Err(LineFault::Usage);
        };
        let text = self.room.try_alloc_str(text)?;
        let words = into_bump_slice(split_words(self.room, text)?);
        let words = without_program(words);
        let request = read_request(&mut self.commands, verb, words, controllers, place)?;
        Ok(Line::Request(request))
    }
}

/// Reads a line of a script for a subsystem with this many controllers. It reports the first fault
/// in this order: too long, not text, usage (also of an output format), device, and then, option by
/// option, a missing NSID or a bad number. Listed controllers are written to `place`, whose
/// contents don't matter before.
pub fn read_line<'a>(
    alloc: Global,
    line: &[u8],
    controllers: u16,
    place: &'a mut CtrlList,
) -> Result<Line<'a>, LineFault>
    ensures exact { IsUnlessMemory LineFault.Memory (λ l. l) result (reading line.now controllers) }
    ensures plain { NeedsNoMemory (begun line.now) → result ≡ reading line.now controllers }
    ensures known { IfOk result (IsKnown controllers) }
{
    let room = Bump::new(alloc);
    LineReader::new(alloc, &room).read(line, controllers, place)
}
