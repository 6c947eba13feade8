//! How a list of namespaces is shown.

ghost use Rattle.std.specs.Prelude.{◌≡◌, ◌<◌, ◌^◌, ◌++◌, IfOk, OnOk, flat_map, string_bytes};
ghost use Rattle.std.specs.List.{All};
ghost use Rattle.serde_json.specs.Data.{number, unsigned};
ghost use Rattle.nv_print.specs.Records.{nsid_line, nsids_data, nsids_text};
ghost use Rattle.nv_print.specs.inner.Tokens.{Adds, data_tokens};

use crate::column::push_right;
use crate::field::write_number;
use crate::hexadecimal::push_hexadecimal_in;
use itoa::Buffer;
use json::Writer;
use std::alloc::{AllocError, Global};

/// Adds the line of an NSID with its index in a list to a text. `room` is room for its digits.
#[tactic(auto, using(crate::proofs::Fields::five_more))]
fn push_nsid(
    text: &mut String,
    index: usize,
    nsid: u32,
    room: &mut [u8; 66],
) -> Result<(), AllocError>
    ensures { IfOk result
        (λ _. string_bytes text.new ≡ string_bytes text.old ++ nsid_line index nsid) }
{
    text.push_str("[")?;
    push_right(text, index as u64, 4)?;
    text.push_str("]:")?;
    push_hexadecimal_in(text, u64::from(nsid), room)?;
    text.push_str("\n")
}

/// Returns the text of a list of NSIDs.
pub(crate) fn nsids_text(alloc: Global, nsids: &[u32]) -> Result<String, AllocError>
    ensures value { IfOk result (λ t. string_bytes t ≡ nsids_text nsids.now) }
    ensures fits { All (λ n. n < 2 ^ 64) nsids.now }
{
    // Room for most lines.
    let mut text = String::with_capacity(alloc, nsids.len().saturating_mul(16))?;
    let mut room = [0; 66];
    for index in 0..nsids.len() {
        push_nsid(&mut text, index, nsids[index], &mut room)?;
    }
    Ok(text)
}

/// Writes the elements of a list of NSIDs as JSON.
#[tactic(auto, using(crate::proofs::Fields::flat_map_next))]
fn write_elements(nsids: &[u32], out: &mut Writer) -> Result<(), AllocError>
    ensures { OnOk result
        (Adds (flat_map (λ n. data_tokens (number (unsigned n))) nsids.now) out.old out.new) }
{
    let mut digits = Buffer::new();
    for nsid in nsids {
        write_number(u64::from(*nsid), &mut digits, out)?;
    }
    Ok(())
}

/// Writes the object of a list of NSIDs.
pub(crate) fn write_nsids(nsids: &[u32], out: &mut Writer) -> Result<(), AllocError>
    ensures value { OnOk result (Adds (data_tokens (nsids_data nsids.now)) out.old out.new) }
    ensures fits { All (λ n. n < 2 ^ 64) nsids.now }
{
    out.begin_object()?;
    out.key("nsids")?;
    out.begin_array()?;
    write_elements(nsids, out)?;
    out.end_array()?;
    out.end_object()
}
