//! Why a subsystem file was refused.
ghost use Rattle.std.specs.Prelude.{◌≡◌, ◌++◌, IfOk, true};
ghost use Rattle.nv_file.specs.declared.error.SubsystemError.TheVariants.{Memory};
ghost use Rattle.nv_file.specs.Check.{check};
ghost use Rattle.nv_file.specs.FaultText.{fault_text, place_text};
ghost use Rattle.nv_file.specs.inner.Reading.{IsPassed};

use crate::key::Key;
use crate::table_name::TableName;
use std::alloc::{AllocError, AllocFailed};
use std::fmt;
use thiserror::Error;

/// The first fault of a subsystem file, or lack of memory.
#[derive(Clone, Copy, Debug, PartialEq, Eq, Error)]
pub enum SubsystemError {
    /// The file isn't TOML.
    NotToml,
    /// A table lacks a required key.
    Missing { table: TableName, key: Key },
    /// The value of a key has the wrong kind.
    Kind { table: TableName, key: Key },
    /// The value of a key is out of range.
    Range { table: TableName, key: Key },
    /// An earlier table has the same value of a key.
    Repeated { table: TableName, key: Key },
    /// A table has a key that isn't allowed.
    Unknown { table: TableName },
    /// The namespaces have more capacity than there is.
    Capacity,
    /// A namespace is attached to a controller that it can't be attached to.
    Attachment,
    /// There was no memory.
    Memory,
}

impl fmt::Display for SubsystemError {
    ghost use Rattle.std.specs.Prelude.{Some};
    ghost use Rattle.nv_file.specs.FaultText.{fault_text};

    ghost output = { λ fault. Some (fault_text fault) };

    fn fmt<W: fmt::Write>(&self, f: &mut fmt::Formatter<W>) -> fmt::Result {
        let (what, table, dot, key) = self.parts();
        write!(f, "{what}{table}{dot}{key}")
    }
}

/// The parts of a text, which follow one another.
pub type TextParts = (&'static str, &'static str, &'static str, &'static str);

/// Returns the parts of a text about a table, or about nothing.
#[tactic(auto, using(crate::proofs::TextLaws::of_table))]
fn about(what: &'static str, table: &'static str) -> TextParts
    ensures { result.0.now ++ (result.1.now ++ (result.2.now ++ result.3.now))
        ≡ what.now ++ table.now }
{
    (what, table, "", "")
}

/// Returns the parts of a text about a key of a table.
#[tactic(auto, using(crate::proofs::TextLaws::of_key))]
fn about_key(what: &'static str, table: TableName, key: Key) -> TextParts
    ensures { result.0.now ++ (result.1.now ++ (result.2.now ++ result.3.now))
        ≡ what.now ++ place_text table key }
{
    (what, table.text(), ".", key.text())
}

impl SubsystemError {
    /// Returns the parts of the fault's text. Together they are what its `Display` writes.
    pub fn parts(&self) -> TextParts
        ensures { result.0.now ++ (result.1.now ++ (result.2.now ++ result.3.now))
            ≡ fault_text self.now }
    {
        match *self {
            SubsystemError::NotToml => about("not TOML", ""),
            SubsystemError::Missing { table, key } => about_key("missing ", table, key),
            SubsystemError::Kind { table, key } => about_key("wrong kind ", table, key),
            SubsystemError::Range { table, key } => about_key("out of range ", table, key),
            SubsystemError::Repeated { table, key } => about_key("repeated ", table, key),
            SubsystemError::Unknown { table } => about("unknown key in ", table.text()),
            SubsystemError::Capacity => about("capacity", ""),
            SubsystemError::Attachment => about("attachment", ""),
            SubsystemError::Memory => about("out of memory", ""),
        }
    }
}

impl From<AllocError> for SubsystemError {
    ghost from_gives = { λ _ e. e ≡ Memory };

    fn from(_error: AllocError) -> SubsystemError {
        SubsystemError::Memory
    }
}

impl<T: Drop> From<AllocFailed<T>> for SubsystemError {
    ghost from_gives = { λ _ e. e ≡ Memory };

    fn from(_error: AllocFailed<T>) -> SubsystemError {
        SubsystemError::Memory
    }
}

/// Returns the fault, unless the rule holds.
#[tactic(auto, using(crate::proofs::CheckLaws::faults))]
pub(crate) fn ensure(holds: bool, fault: SubsystemError) -> Result<(), SubsystemError>
    ensures exact { IsPassed (check holds fault) result }
    ensures sound { IfOk result (λ _. holds ≡ true) }
{
    if holds { Ok(()) } else { Err(fault) }
}
