//! How an error log is shown.

ghost use Rattle.std.specs.Prelude.{◌≡◌, ◌++◌, IfOk, OnOk, flat_map, string_bytes};
ghost use Rattle.nv_print.specs.Records.{entries_data, entries_text, entry_text, holds_error};
ghost use Rattle.nv_print.specs.inner.Tokens.{Adds, data_tokens, error_tokens};

use crate::field::{Field, push_fields};
use crate::log_fields::{entry_fields, write_entry};
use json::Writer;
use nv_layout::{ErrorEntries, ErrorEntry};
use std::alloc::{AllocError, Global};

/// Returns whether an entry holds an error.
fn holds_error(entry: &ErrorEntry) -> bool
    ensures { result ≡ holds_error entry.now }
{
    entry.count != 0
}

/// Adds the lines of an entry with its index to a text if it holds an error.
fn push_entry(text: &mut String, index: usize, entry: &ErrorEntry) -> Result<(), AllocError>
    ensures { IfOk result
        (λ _. string_bytes text.new ≡ string_bytes text.old ++ entry_text index entry.now) }
{
    if !holds_error(entry) {
        return Ok(());
    }
    let index = Field::decimal("entry", index as u64);
    index.push_line(text)?;
    push_fields(text, &entry_fields(entry))
}

/// Returns the text of the entries of an error log that hold an error.
pub(crate) fn entries_text(alloc: Global, entries: &ErrorEntries<'_>) -> Result<String, AllocError>
    ensures { IfOk result (λ t. string_bytes t ≡ entries_text entries.now) }
{
    // Room for most entries.
    let mut text = String::with_capacity(alloc, entries.present().saturating_mul(256))?;
    for index in 0..entries.present() {
        push_entry(&mut text, index, &entries.get(index))?;
    }
    Ok(text)
}

/// Writes the object of an entry if it holds an error.
fn write_error(entry: &ErrorEntry, out: &mut Writer) -> Result<(), AllocError>
    ensures { OnOk result (Adds (error_tokens entry.now) out.old out.new) }
{
    if !holds_error(entry) {
        return Ok(());
    }
    write_entry(entry, out)
}

/// Writes the objects of the entries of an error log that hold an error.
#[tactic(auto, using(crate::proofs::Fields::flat_map_next))]
fn write_errors(entries: &ErrorEntries<'_>, out: &mut Writer) -> Result<(), AllocError>
    ensures { OnOk result (Adds (flat_map error_tokens entries.now) out.old out.new) }
{
    for index in 0..entries.present() {
        write_error(&entries.get(index), out)?;
    }
    Ok(())
}

/// Writes the object of an error log.
pub(crate) fn write_entries(entries: &ErrorEntries<'_>, out: &mut Writer) -> Result<(), AllocError>
    ensures { OnOk result (Adds (data_tokens (entries_data entries.now)) out.old out.new) }
{
    out.begin_object()?;
    out.key("errors")?;
    out.begin_array()?;
    write_errors(entries, out)?;
    out.end_array()?;
    out.end_object()
}
