//! Reads what the arguments of a program ask for.

ghost use Rattle.std.specs.Prelude.{IfErr, IfOk, map, option_map};
ghost use Rattle.std.specs.String.{string_bytes};
ghost use Rattle.nv_arguments.specs.Arguments.{arguments_of};
ghost use Rattle.nv_model.specs.WellFormed.{IsWellFormed};
ghost use Rattle.nv_program.specs.Asked.{IsAsked, IsUnread, IsSubsystemAt, IsSubsystemOf};

use crate::files::NamedFiles;
use crate::stop::Stop;
use crate::words::GivenWords;
use nv_arguments::Arguments;
use nv_script::Geometry;
use nv_subsystem::{DEMO, Subsystem};
use std::alloc::Global;

/// The greatest length of a subsystem file, in bytes.
const MOST_BYTES: u64 = 1_048_576;

/// Returns the subsystem of the file with a name.
fn subsystem_of<F: NamedFiles>(files: &F, alloc: Global, path: &str) -> Result<Subsystem, Stop>
    ensures exact { IsSubsystemOf (F.had files.now path.now) (F.failed files.now path.now) result }
    ensures well_formed { IfOk result IsWellFormed }
{
    let bytes = match files.bytes_at(alloc, path, MOST_BYTES + 1) {
        Ok(bytes) => bytes,
        Err(error) => return Err(Stop::of_fault(error, Stop::Unreadable)),
    };
    if bytes.len() as u64 > MOST_BYTES {
        return Err(Stop::Unreadable);
    }
    Ok(Subsystem::from_toml(alloc, &bytes)?)
}

/// Returns the subsystem of the file with a name, or the built-in one.
#[tactic(auto, using(nv_file::proofs::DemoLaws::demo_is))]
fn subsystem_at<F: NamedFiles>(
    files: &F,
    alloc: Global,
    path: Option<&str>,
) -> Result<Subsystem, Stop>
    ensures exact { IsSubsystemAt (F.had files.now) (F.failed files.now)
        (option_map (λ p. p.now) path.entry) result }
    ensures well_formed { IfOk result IsWellFormed }
{
    match path {
        Some(path) => subsystem_of(files, alloc, path),
        None => Ok(Subsystem::from_toml(alloc, DEMO.as_bytes())?),
    }
}

/// Returns the arguments of the program, of which the first is its name.
pub fn words_given<R: GivenWords + AllocGlobal>(rt: &R) -> Result<Vec<String>, Stop>
    ensures words { IfOk result (λ words. R.gave rt.now (map string_bytes words.items)) }
    ensures failure { IfErr result (λ why. IsUnread (R.refused rt.now) why) }
{
    rt.words(rt.alloc())
        .map_err(|error| Stop::of_fault(error, Stop::Arguments))
}

/// Returns the subsystem and the geometry that the arguments ask for, of which the first is the
/// program's name. If they name a file, it is read.
pub fn asked<R: NamedFiles + AllocGlobal>(
    rt: &R,
    words: &[&str],
) -> Result<(Subsystem, Geometry), Stop>
    ensures exact { IsAsked (R.had rt.now) (R.failed rt.now)
        (arguments_of (map (λ w. w.now) words.now)) result }
    ensures well_formed { IfOk result (λ asked. IsWellFormed asked.0) }
{
    let arguments = Arguments::read(rt.alloc(), words)?;
    let subsystem = subsystem_at(rt, rt.alloc(), arguments.subsystem)?;
    Ok((subsystem, arguments.geometry))
}
