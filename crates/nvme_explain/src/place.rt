//! Where a table stands in a subsystem file.

use nv_subsystem::TableName;
use std::alloc::{AllocError, Global};
use std::fmt;
use toml::{Table, Value};

/// The place of a table, by the indices of lists.
#[derive(Clone, Copy, Debug, PartialEq, Eq)]
pub enum Place {
    Top,
    Format(usize),
    Controller(usize),
    Feature(usize, usize),
    Smart(usize),
    Namespace(usize),
}

impl fmt::Display for Place {
    fn fmt<W: fmt::Write>(&self, f: &mut fmt::Formatter<W>) -> fmt::Result {
        match self {
            Place::Top => write!(f, "top"),
            Place::Format(at) => write!(f, "format[{at}]"),
            Place::Controller(at) => write!(f, "controller[{at}]"),
            Place::Feature(at, feature) => write!(f, "controller[{at}].feature[{feature}]"),
            Place::Smart(at) => write!(f, "controller[{at}].smart"),
            Place::Namespace(at) => write!(f, "namespace[{at}]"),
        }
    }
}

/// Returns the list of a key, if it has one.
fn list_of<'a>(table: &'a Table, key: &str) -> &'a [Value] {
    match table.get(key).and_then(Value::as_array) {
        Some(values) => values.as_slice(),
        None => &[],
    }
}

/// Returns the places of all tables of a kind, in the order of the file.
pub fn places_of(
    alloc: Global,
    document: &Table,
    table: TableName,
) -> Result<Vec<Place>, AllocError> {
    let mut places = Vec::new(alloc);
    match table {
        TableName::Top => places.push(Place::Top)?,
        TableName::Format => {
            for at in 0..list_of(document, "format").len() {
                places.push(Place::Format(at))?;
            }
        }
        TableName::Namespace => {
            for at in 0..list_of(document, "namespace").len() {
                places.push(Place::Namespace(at))?;
            }
        }
        TableName::Controller | TableName::Feature | TableName::Smart => {
            let controllers = list_of(document, "controller");
            for at in 0..controllers.len() {
                push_places_in(&mut places, at, &controllers[at], table)?;
            }
        }
    }
    Ok(places)
}

/// Adds the places of a controller's tables of a kind.
fn push_places_in(
    places: &mut Vec<Place>,
    at: usize,
    controller: &Value,
    table: TableName,
) -> Result<(), AllocError> {
    match table {
        TableName::Feature => {
            if let Some(controller) = controller.as_table() {
                for feature in 0..list_of(controller, "feature").len() {
                    places.push(Place::Feature(at, feature))?;
                }
            }
        }
        TableName::Smart => places.push(Place::Smart(at))?,
        _ => places.push(Place::Controller(at))?,
    }
    Ok(())
}

/// Keeps the first tables of a list.
fn keep(table: &mut Table, key: &str, count: usize) {
    let Some(value) = table.get_mut(key) else {
        return;
    };
    if let Some(values) = value.as_array_mut() {
        values.truncate(count);
    }
}

/// Returns a table of a list.
fn table_in<'a>(table: &'a mut Table, key: &str, at: usize) -> Option<&'a mut Table> {
    table
        .get_mut(key)?
        .as_array_mut()?
        .get_mut(at)?
        .as_table_mut()
}

impl Place {
    /// Removes the tables after this one from its list, and those after its controller.
    pub fn cut(self, document: &mut Table) {
        match self {
            Place::Top => {}
            Place::Format(at) => keep(document, "format", at.saturating_add(1)),
            Place::Namespace(at) => keep(document, "namespace", at.saturating_add(1)),
            Place::Controller(at) | Place::Smart(at) => {
                keep(document, "controller", at.saturating_add(1));
            }
            Place::Feature(at, feature) => {
                keep(document, "controller", at.saturating_add(1));
                if let Some(controller) = table_in(document, "controller", at) {
                    keep(controller, "feature", feature.saturating_add(1));
                }
            }
        }
    }

    /// Returns the table here.
    pub fn find(self, document: &mut Table) -> Option<&mut Table> {
        match self {
            Place::Top => Some(document),
            Place::Format(at) => table_in(document, "format", at),
            Place::Namespace(at) => table_in(document, "namespace", at),
            Place::Controller(at) => table_in(document, "controller", at),
            Place::Feature(at, feature) => {
                table_in(table_in(document, "controller", at)?, "feature", feature)
            }
            Place::Smart(at) => table_in(document, "controller", at)?
                .get_mut("smart")?
                .as_table_mut(),
        }
    }
}
