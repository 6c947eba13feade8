//! Where the first fault of a subsystem file is.

use crate::place::{Place, places_of};
use nv_subsystem::{Subsystem, SubsystemError, TableName};
use std::alloc::{AllocError, Global};
use toml::Table;

/// Returns the first fault of a file's bytes and its place, or nothing if they have none.
pub fn fault_in(alloc: Global, bytes: &[u8]) -> Result<Option<String>, AllocError> {
    let fault = match Subsystem::from_toml(alloc, bytes) {
        Ok(_) => return Ok(None),
        Err(SubsystemError::Memory) => return Err(AllocError),
        Err(fault) => fault,
    };
    let Ok(text) = str::from_utf8(bytes) else {
        return Ok(Some(format!(in alloc; "{fault}: it is no UTF-8 text")?));
    };
    if let Err(error) = toml::table_from_str(alloc, text) {
        return Ok(Some(format!(in alloc; "{fault}: {error}")?));
    }
    let file = File { alloc, text, fault };
    let words = match fault {
        SubsystemError::Missing { table, .. }
        | SubsystemError::Kind { table, .. }
        | SubsystemError::Range { table, .. }
        | SubsystemError::Repeated { table, .. } => {
            let (what, _, _, key) = fault.parts();
            let place = file.place(table)?;
            format!(in alloc; "{what}{place}.{key}")?
        }
        SubsystemError::Unknown { table } => {
            let place = file.place(table)?;
            let key = file.unknown_key(place)?;
            format!(in alloc; "{place}: unknown key {key}")?
        }
        _ => format!(in alloc; "{fault}")?,
    };
    Ok(Some(words))
}

/// A file in TOML, and its first fault.
#[derive(Clone, Copy)]
struct File<'a> {
    alloc: Global,
    text: &'a str,
    fault: SubsystemError,
}

impl File<'_> {
    /// Returns the file's document.
    fn document(&self) -> Result<Table, AllocError> {
        toml::table_from_str(self.alloc, self.text).map_err(|_| AllocError)
    }

    /// Returns the first fault of a document that was made from the file's.
    fn first_fault_in(&self, document: &Table) -> Result<Option<SubsystemError>, AllocError> {
        let text = toml::table_to_string(self.alloc, document).map_err(|_| AllocError)?;
        match Subsystem::from_toml(self.alloc, text.as_bytes()) {
            Ok(_) => Ok(None),
            Err(SubsystemError::Memory) => Err(AllocError),
            Err(fault) => Ok(Some(fault)),
        }
    }

    /// Returns the place of the fault, in a table of this kind: that after which nothing is needed for
    /// the fault.
    fn place(&self, table: TableName) -> Result<Place, AllocError> {
        let places = places_of(self.alloc, &self.document()?, table)?;
        for place in places {
            let mut document = self.document()?;
            place.cut(&mut document);
            if self.first_fault_in(&document)? == Some(self.fault) {
                return Ok(place);
            }
        }
        Ok(Place::Top)
    }

    /// Returns a key without which the table here has no unknown key, if all other keys that it can
    /// do without are removed first.
    fn unknown_key(&self, place: Place) -> Result<String, AllocError> {
        let mut document = self.document()?;
        place.cut(&mut document);
        let keys = match place.find(&mut document) {
            Some(table) => keys_of(self.alloc, table)?,
            None => Vec::new(self.alloc),
        };
        for key in keys {
            let Some(value) = place
                .find(&mut document)
                .and_then(|table| table.remove(key.as_str()))
            else {
                continue;
            };
            let fault = self.first_fault_in(&document)?;
            if fault == Some(self.fault) {
                continue;
            }
            if !self.is_missing(fault, key.as_str()) {
                return Ok(key);
            }
            if let Some(table) = place.find(&mut document) {
                table.insert(key, value)?;
            }
        }
        Ok(String::new(self.alloc))
    }

    /// Returns whether a fault is that the table of this file's fault lacks a key.
    fn is_missing(&self, fault: Option<SubsystemError>, key: &str) -> bool {
        let Some(SubsystemError::Missing { table, .. }) = fault else {
            return false;
        };
        let (_, _, _, missing) = fault.map(|fault| fault.parts()).unwrap_or(("", "", "", ""));
        self.fault == SubsystemError::Unknown { table } && missing == key
    }
}

/// Returns the keys of a table.
fn keys_of(alloc: Global, table: &Table) -> Result<Vec<String>, AllocError> {
    let mut keys = Vec::new(alloc);
    for (key, _) in table.iter() {
        keys.push(key.clone()?)?;
    }
    Ok(keys)
}
