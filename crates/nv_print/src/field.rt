//! Fields of records: keys with values, which are printed as lines of text and as members of JSON.

ghost use Rattle.std.specs.Prelude.{◌≡◌, ◌-◌, ◌++◌, [], IfOk, OnOk, codes, flat_map, length};
ghost use Rattle.std.specs.Prelude.{replicate, string_bytes};
ghost use Rattle.serde_json.specs.Data.{no_members, number, object, unsigned};
ghost use Rattle.nv_print.specs.Field.{as_text, field, field_line, fields_text, in_decimal};
ghost use Rattle.nv_print.specs.Field.{in_hexadecimal, in_six_digits, shape_data};
ghost use Rattle.nv_print.specs.Field.{shape_of, shape_text, wide};
ghost use Rattle.nv_print.specs.Records.{field_within};
ghost use Rattle.nv_print.specs.Text.{printable};
ghost use Rattle.nv_print.specs.inner.Tokens.{Adds, before, data_tokens, field_tokens};

use crate::hexadecimal::{push_hexadecimal, push_six_digits, write_six_digits};
use crate::printable::printable;
use itoa::Buffer;
use json::Writer;
use std::alloc::{AllocError, Global};
use std::marker::Model;

/// The value of a field, and how it is shown.
#[derive(Clone, Copy)]
pub(crate) enum FieldValue<'a> {
    Decimal(u64),
    Hexadecimal(u64),
    /// A number of sixteen bytes, in decimal.
    Wide(u128),
    /// A number in six hexadecimal digits.
    SixDigits(u32),
    Text(&'a str),
}

impl<'a> FieldValue<'a> {
    /// Adds it to a text as it is shown.
    fn push(&self, text: &mut String) -> Result<(), AllocError>
        ensures { IfOk result (λ _. string_bytes text.new
            ≡ string_bytes text.old ++ shape_text (shape_of self.now)) }
    {
        let mut digits = Buffer::new();
        match *self {
            FieldValue::Decimal(number) => text.push_str(digits.format(number)),
            FieldValue::Hexadecimal(number) => push_hexadecimal(text, number),
            FieldValue::Wide(number) => text.push_str(digits.format(number)),
            FieldValue::SixDigits(number) => push_six_digits(text, number),
            FieldValue::Text(shown) => text.push_str(shown),
        }
    }

    /// Writes it as JSON. A number of sixteen bytes is a string, because readers of JSON round such
    /// numbers.
    fn write(&self, out: &mut Writer) -> Result<(), AllocError>
        ensures { OnOk result (Adds (data_tokens (shape_data (shape_of self.now))) out.old out.new) }
    {
        let mut digits = Buffer::new();
        match *self {
            FieldValue::Decimal(number) => write_number(number, &mut digits, out),
            FieldValue::Hexadecimal(number) => write_number(number, &mut digits, out),
            FieldValue::Wide(number) => out.string(digits.format(number)),
            FieldValue::SixDigits(number) => write_six_digits(number, out),
            FieldValue::Text(shown) => out.string(shown),
        }
    }
}

/// Writes a number as JSON. `digits` is room for its digits. It is inlined, because a long list
/// would make a call for each element.
#[inline(always)]
pub(crate) fn write_number(
    value: u64,
    digits: &mut Buffer,
    out: &mut Writer,
) -> Result<(), AllocError>
    ensures { OnOk result (Adds (data_tokens (number (unsigned value))) out.old out.new) }
{
    out.number(digits.format(value))
}

/// Writes a member of an object with a number. `digits` is room for its digits.
pub(crate) fn write_decimal(
    key: &str,
    value: u64,
    digits: &mut Buffer,
    out: &mut Writer,
) -> Result<(), AllocError>
    ensures { OnOk result (Adds (field_tokens (field key.now (in_decimal value))) out.old out.new) }
{
    out.key(key)?;
    write_number(value, digits, out)
}

/// Writes a member of an object with a text.
pub(crate) fn write_text(key: &str, text: &str, out: &mut Writer) -> Result<(), AllocError>
    ensures { OnOk result (Adds (field_tokens (field key.now (as_text text.now))) out.old out.new) }
{
    out.key(key)?;
    out.string(text)
}

/// Returns what is between a key and its value: spaces up to column 20, a colon and a space.
#[tactic(auto, using(crate::proofs::Padding::gap_cut, crate::proofs::Padding::gap_is))]
fn gap<'a>(key: &str) -> &'a str
    ensures { result.now ≡ replicate (20 - length key.now) 32 ++ codes ": " }
{
    let room = 20usize.saturating_sub(key.len());
    let (_, gap) = "                    : ".split_at(20 - room);
    gap
}

/// A field of a record. Contracts see its key and how its value is shown.
#[derive(Drop)]
pub(crate) struct Field<'a> {
    key: &'static str,
    value: FieldValue<'a>,
}

impl<'a> Model for Field<'a> {
    ghost use Rattle.nv_print.specs.Field.{Field, field, shape_of};

    ghost Value = { Field };

    ghost view = { λ f. field f.key.now (shape_of f.value) };
}

impl<'a> Field<'a> {
    pub(crate) fn decimal(key: &'static str, number: u64) -> Field<'a>
        ensures { result ≡ field key.now (in_decimal number) }
    {
        Field {
            key,
            value: FieldValue::Decimal(number),
        }
    }

    pub(crate) fn hexadecimal(key: &'static str, number: u64) -> Field<'a>
        ensures { result ≡ field key.now (in_hexadecimal number) }
    {
        Field {
            key,
            value: FieldValue::Hexadecimal(number),
        }
    }

    pub(crate) fn wide(key: &'static str, number: u128) -> Field<'a>
        ensures { result ≡ field key.now (wide number) }
    {
        Field {
            key,
            value: FieldValue::Wide(number),
        }
    }

    pub(crate) fn six_digits(key: &'static str, number: u32) -> Field<'a>
        ensures { result ≡ field key.now (in_six_digits number) }
    {
        Field {
            key,
            value: FieldValue::SixDigits(number),
        }
    }

    pub(crate) fn text(key: &'static str, text: &'a str) -> Field<'a>
        ensures { result ≡ field key.now (as_text text.now) }
    {
        Field {
            key,
            value: FieldValue::Text(text),
        }
    }

    /// Creates a field with the printable ASCII at the beginning of some bytes, without trailing
    /// spaces.
    pub(crate) fn ascii(key: &'static str, bytes: &'a [u8]) -> Field<'a>
        ensures { result ≡ field key.now (as_text (printable bytes.now)) }
    {
        Field::text(key, printable(bytes))
    }

    /// Adds its line to a text: the key at the left of 20 characters, and the value.
    #[tactic(auto, using(crate::proofs::Fields::line_more))]
    pub(crate) fn push_line(&self, text: &mut String) -> Result<(), AllocError>
        ensures { IfOk result
            (λ _. string_bytes text.new ≡ string_bytes text.old ++ field_line self.now) }
    {
        text.push_str(self.key)?;
        text.push_str(gap(self.key))?;
        self.value.push(text)?;
        text.push_str("\n")
    }

    /// Adds it to a line.
    #[tactic(auto, using(crate::proofs::Fields::within_more))]
    fn push_within(&self, text: &mut String) -> Result<(), AllocError>
        ensures { IfOk result
            (λ _. string_bytes text.new ≡ string_bytes text.old ++ field_within self.now) }
    {
        text.push_str(" ")?;
        text.push_str(self.key)?;
        text.push_str(":")?;
        self.value.push(text)
    }

    /// Writes its key and its value as a member of an object.
    #[tactic(auto, using(crate::proofs::Fields::two_more))]
    fn write(&self, out: &mut Writer) -> Result<(), AllocError>
        ensures { OnOk result (Adds (field_tokens self.now) out.old out.new) }
    {
        out.key(self.key)?;
        self.value.write(out)
    }
}

/// Adds the lines of fields to a text.
#[tactic(auto, using(crate::proofs::Fields::flat_map_next))]
pub(crate) fn push_fields(text: &mut String, fields: &[Field<'_>]) -> Result<(), AllocError>
    ensures { IfOk result
        (λ _. string_bytes text.new ≡ string_bytes text.old ++ fields_text fields.now) }
{
    for field in fields {
        field.push_line(text)?;
    }
    Ok(())
}

/// Returns the text of fields.
pub(crate) fn fields_text(alloc: Global, fields: &[Field<'_>]) -> Result<String, AllocError>
    ensures { IfOk result (λ t. string_bytes t ≡ fields_text fields.now) }
{
    // Room for most lines.
    let mut text = String::with_capacity(alloc, fields.len().saturating_mul(32))?;
    push_fields(&mut text, fields)?;
    Ok(text)
}

/// Adds fields to a line.
#[tactic(auto, using(crate::proofs::Fields::flat_map_next))]
pub(crate) fn push_within(text: &mut String, fields: &[Field<'_>]) -> Result<(), AllocError>
    ensures { IfOk result
        (λ _. string_bytes text.new ≡ string_bytes text.old ++ flat_map field_within fields.now) }
{
    for field in fields {
        field.push_within(text)?;
    }
    Ok(())
}

/// Writes fields as members of an object, one after the other.
#[tactic(auto, using(crate::proofs::Fields::flat_map_next))]
pub(crate) fn write_fields(fields: &[Field<'_>], out: &mut Writer) -> Result<(), AllocError>
    ensures { OnOk result (Adds (flat_map field_tokens fields.now) out.old out.new) }
{
    for field in fields {
        field.write(out)?;
    }
    Ok(())
}

/// Writes an object, whose members these fields are in turn.
pub(crate) fn write_object(fields: &[Field<'_>], out: &mut Writer) -> Result<(), AllocError>
    ensures { OnOk result
        (Adds (data_tokens (object (before fields.now no_members))) out.old out.new) }
{
    out.begin_object()?;
    write_fields(fields, out)?;
    out.end_object()
}
