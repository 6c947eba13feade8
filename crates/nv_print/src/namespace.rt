//! How a namespace is shown: its fields, and its formats.

ghost use Rattle.std.specs.Prelude.{◌≡◌, ◌++◌, IfOk, OnOk, flat_map, string_bytes};
ghost use Rattle.nv_print.specs.Field.{object_of};
ghost use Rattle.nv_print.specs.Records.{fields_of_lbaf, formats_of, lbaf_line, mark_of};
ghost use Rattle.nv_print.specs.Records.{namespace_data, namespace_text};
ghost use Rattle.nv_print.specs.Text.{lines_of};
ghost use Rattle.nv_print.specs.inner.Tokens.{Adds, data_tokens};

use crate::column::push_right;
use crate::field::{push_fields, push_within, write_fields};
use crate::identity::{id_ns_fields, lbaf_fields, write_lbaf};
use crate::members::id_ns_members;
use json::Writer;
use nv_layout::{IdNs, Lbaf};
use std::alloc::{AllocError, Global};
use std::cmp;

/// Returns the formats that a namespace has.
fn formats_of(namespace: &IdNs) -> &[Lbaf]
    ensures { result.now ≡ formats_of namespace.now }
{
    let count = cmp::min(namespace.nlbaf, 15) as usize + 1;
    &namespace.lbafs[..count]
}

/// Returns the text after a format, which marks the format in use.
fn mark_of<'a>(in_use: usize, index: usize) -> &'a str
    ensures { result.now ≡ mark_of in_use index }
{
    if in_use == index { " (in use)" } else { "" }
}

/// Adds the line of a format with its index to a text. It marks the format in use.
#[tactic(auto, using(crate::proofs::Fields::format_more))]
fn push_format(
    text: &mut String,
    in_use: usize,
    index: usize,
    format: &Lbaf,
) -> Result<(), AllocError>
    ensures { IfOk result (λ _. string_bytes text.new
        ≡ string_bytes text.old ++ lbaf_line in_use index format.now) }
{
    text.push_str("lbaf ")?;
    push_right(text, index as u64, 2)?;
    text.push_str("             :")?;
    push_within(text, &lbaf_fields(format))?;
    text.push_str(mark_of(in_use, index))?;
    text.push_str("\n")
}

/// Adds the lines of formats to a text. They mark the format in use.
fn push_formats(text: &mut String, in_use: usize, formats: &[Lbaf]) -> Result<(), AllocError>
    ensures { IfOk result (λ _. string_bytes text.new
        ≡ string_bytes text.old ++ lines_of (lbaf_line in_use) 0 formats.now) }
{
    for index in 0..formats.len() {
        push_format(text, in_use, index, &formats[index])?;
    }
    Ok(())
}

/// Returns the text of a namespace.
pub(crate) fn namespace_text(alloc: Global, namespace: &IdNs) -> Result<String, AllocError>
    ensures { IfOk result (λ t. string_bytes t ≡ namespace_text namespace.now) }
{
    // Room for the fields and sixteen formats.
    let mut text = String::with_capacity(alloc, 1024)?;
    push_fields(&mut text, &id_ns_fields(namespace))?;
    let in_use = namespace.flbas as usize % 16;
    push_formats(&mut text, in_use, formats_of(namespace))?;
    Ok(text)
}

/// Writes the objects of formats.
#[tactic(auto, using(crate::proofs::Fields::flat_map_next))]
fn write_formats(formats: &[Lbaf], out: &mut Writer) -> Result<(), AllocError>
    ensures { OnOk result
        (Adds (flat_map (λ f. data_tokens (object_of (fields_of_lbaf f))) formats.now)
        out.old out.new) }
{
    for format in formats {
        write_lbaf(format, out)?;
    }
    Ok(())
}

/// Writes the object of a namespace.
pub(crate) fn write_namespace(namespace: &IdNs, out: &mut Writer) -> Result<(), AllocError>
    ensures { OnOk result (Adds (data_tokens (namespace_data namespace.now)) out.old out.new) }
{
    let (before_lbafs, after_lbafs) = id_ns_members(namespace);
    out.begin_object()?;
    write_fields(&before_lbafs, out)?;
    out.key("lbafs")?;
    out.begin_array()?;
    write_formats(formats_of(namespace), out)?;
    out.end_array()?;
    write_fields(&after_lbafs, out)?;
    out.end_object()
}
