//! The single lines that are shown for commands without a record.

ghost use Rattle.std.specs.Prelude.{◌≡◌, ◌++◌, IfOk, string_bytes};
ghost use Rattle.nv_print.specs.Message.{feature_set, feature_text, feature_value, reset_done, success_line};

use crate::column::push_decimal;
use crate::hexadecimal::push_hexadecimal;
use crate::select::Select;
use nv_layout::Feature;
use std::alloc::{AllocError, Global};

/// Room for most lines.
const ROOM: usize = 128;

/// Returns the line of a successful command on a namespace.
#[tactic(auto, using(crate::proofs::Fields::two_more))]
pub(crate) fn success_line(alloc: Global, words: &str, nsid: u32) -> Result<String, AllocError>
    ensures { IfOk result (λ t. string_bytes t ≡ success_line words.now nsid) }
{
    let mut text = String::with_capacity(alloc, ROOM)?;
    text.push_str(words)?;
    push_decimal(&mut text, u64::from(nsid))?;
    text.push_str("\n")?;
    Ok(text)
}

/// Adds a feature's identifier and its name to a text.
#[tactic(auto, using(crate::proofs::Fields::four_more))]
fn push_feature(text: &mut String, feature: Feature) -> Result<(), AllocError>
    ensures { IfOk result
        (λ _. string_bytes text.new ≡ string_bytes text.old ++ feature_text feature) }
{
    push_hexadecimal(text, u64::from(feature.fid()))?;
    text.push_str(" (")?;
    text.push_str(feature.name())?;
    text.push_str(")")
}

/// Returns the line of a feature's value.
#[tactic(auto, using(crate::proofs::Fields::six_more))]
pub(crate) fn feature_value(
    alloc: Global,
    feature: Feature,
    select: Select,
    value: u32,
) -> Result<String, AllocError>
    ensures { IfOk result (λ t. string_bytes t ≡ feature_value feature select value) }
{
    let mut text = String::with_capacity(alloc, ROOM)?;
    text.push_str("get-feature:")?;
    push_feature(&mut text, feature)?;
    text.push_str(", ")?;
    text.push_str(select.text())?;
    text.push_str(" value:")?;
    push_hexadecimal(&mut text, u64::from(value))?;
    text.push_str("\n")?;
    Ok(text)
}

/// Returns the line of a value that a feature was set to.
#[tactic(auto, using(crate::proofs::Fields::six_more))]
pub(crate) fn feature_set(
    alloc: Global,
    feature: Feature,
    value: u32,
    save: bool,
) -> Result<String, AllocError>
    ensures { IfOk result (λ t. string_bytes t ≡ feature_set feature value save) }
{
    let mut text = String::with_capacity(alloc, ROOM)?;
    text.push_str("set-feature:")?;
    push_feature(&mut text, feature)?;
    text.push_str(", value:")?;
    push_hexadecimal(&mut text, u64::from(value))?;
    text.push_str(", save:")?;
    push_decimal(&mut text, save as u64)?;
    text.push_str("\n")?;
    Ok(text)
}

/// Returns the line of a controller that was reset.
pub(crate) fn reset(alloc: Global) -> Result<String, AllocError>
    ensures { IfOk result (λ t. string_bytes t ≡ reset_done) }
{
    format!(in alloc; "reset: Success\n")
}
