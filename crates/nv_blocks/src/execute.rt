//! Finds an entry's data, and does what the entry asks for.

ghost use Rattle.std.specs.Prelude.{◌≡◌, ◌+◌, ◌*◌, ◌<◌, ◌≤◌, Err, MatchResult, Ok, OnErr, OnOk, length, true};
ghost use Rattle.nv_prp.specs.Place.{LieIn, places};
ghost use Rattle.nv_prp.specs.Transfer.{most_bytes};
ghost use Rattle.nv_blocks.specs.Command.{has_data};
ghost use Rattle.nv_blocks.specs.Effect.{acted, effect, execution, places_of};
ghost use Rattle.nv_blocks.specs.Effect.{prp_refusal, sent};

use crate::command::{Action, Command, Extent};
use crate::compare::are_held;
use crate::ranges::{manage, zero};
use crate::refusal::Refusal;
use crate::terms::Terms;
use nv_host::PagedMemory;
use nv_layout::Sqe;
use nv_prp::{PrpError, Spans, copy_in, copy_out, walk};

/// Returns the refusal of a faulty data pointer. Section "Generic Command Status Definition".
fn prp_refusal(fault: PrpError) -> Refusal
    ensures { result ≡ prp_refusal fault }
{
    match fault {
        PrpError::Offset => Refusal::PrpOffsetInvalid,
        PrpError::Outside => Refusal::DataTransferError,
    }
}

/// Finds where an entry's data lies, of which there may be none.
#[tactic(auto, using(crate::proofs::PlaceLaws::found))]
pub(crate) fn find_data<M: PagedMemory>(
    mem: &M,
    entry: &Sqe,
    len: usize,
    spans: &mut Spans,
) -> Result<(), Refusal>
    requires { len ≤ most_bytes }
    ensures found { let found = places_of (M.page_len mem.now) (M.bytes mem.now) entry.now len in
        MatchResult result (λ _. found ≡ Ok (places spans.new)) (λ refusal. found ≡ Err refusal) }
    ensures inside { OnOk result (LieIn (length (M.bytes mem.now)) spans.new) }
    ensures len { OnOk result (length (places spans.new) ≡ len) }
{
    if len == 0 {
        spans.clear();
        return Ok(());
    }
    match walk(mem, entry.prp1, entry.prp2, len as u32, spans) {
        Ok(()) => Ok(()),
        Err(fault) => Err(prp_refusal(fault)),
    }
}

/// Sends bytes to where an entry's data lies, if there are any.
#[tactic(auto, unfolding(crate::specs::Effect::sent))]
pub fn send<M: PagedMemory>(mem: &mut M, entry: &Sqe, bytes: &[u8]) -> Result<(), Refusal>
    requires { length bytes.now ≤ most_bytes }
    ensures sent { let found = sent (M.page_len mem.old) entry.now bytes.now (M.bytes mem.old) in
        MatchResult result (λ _. found ≡ Ok (M.bytes mem.new)) (λ refusal. found ≡ Err refusal) }
    ensures err { OnErr result (M.bytes mem.new ≡ M.bytes mem.old) }
    ensures len { length (M.bytes mem.new) ≡ length (M.bytes mem.old) }
    ensures page { M.page_len mem.new ≡ M.page_len mem.old }
{
    let mut spans = Spans::new();
    find_data(mem, entry, bytes.len(), &mut spans)?;
    copy_out(mem, &spans, bytes);
    Ok(())
}

/// Does an action on blocks. The data lies at the spans, if any is transferred.
#[tactic(auto, unfolding(nv_host::specs::Bytes::bytes_at, nv_host::specs::Bytes::with_bytes))]
fn act<M: PagedMemory>(
    mem: &mut M,
    stored: &mut [u8],
    spans: &Spans,
    action: Action,
    extent: Extent,
    is_exhausted: bool,
) -> Result<(), Refusal>
    requires inside { LieIn (length (M.bytes mem.old)) spans.now }
    requires extent { extent.start + extent.len ≤ length stored.old }
    requires len { has_data action ≡ true → length (places spans.now) ≡ extent.len }
    ensures acted { let found = acted action is_exhausted extent (places spans.now) stored.old (M.bytes mem.old) in
        MatchResult result (λ _. found ≡ Ok (effect stored.new (M.bytes mem.new)))
        (λ refusal. found ≡ Err refusal) }
    ensures err { OnErr result (stored.new ≡ stored.old) }
    ensures err_bytes { OnErr result (M.bytes mem.new ≡ M.bytes mem.old) }
    ensures len { length (M.bytes mem.new) ≡ length (M.bytes mem.old) }
    ensures page { M.page_len mem.new ≡ M.page_len mem.old }
{
    let end = extent.start + extent.len;
    match action {
        Action::Read => copy_out(mem, spans, &stored[extent.start..end]),
        Action::Write => {
            if is_exhausted {
                return Err(Refusal::CapacityExceeded);
            }
            copy_in(mem, spans, &mut stored[extent.start..end]);
        }
        Action::Compare => {
            if !are_held(mem, spans, &stored[extent.start..end]) {
                return Err(Refusal::CompareFailure);
            }
        }
        Action::WriteZeroes => zero(stored, extent),
        Action::Verify => {}
    }
    Ok(())
}

/// Does what an entry asks for, or refuses it by the first rule that it breaks. Then nothing
/// changes.
#[tactic(auto, unfolding(crate::specs::Effect::execution))]
pub(crate) fn execute<M: PagedMemory>(
    mem: &mut M,
    stored: &mut [u8],
    terms: &Terms,
    entry: &Sqe,
) -> Result<(), Refusal>
    ensures executed { let found = execution terms.now (M.page_len mem.old) stored.old (M.bytes mem.old) entry.now in
        MatchResult result (λ _. found ≡ Ok (effect stored.new (M.bytes mem.new)))
        (λ refusal. found ≡ Err refusal) }
    ensures err { OnErr result (stored.new ≡ stored.old) }
    ensures err_bytes { OnErr result (M.bytes mem.new ≡ M.bytes mem.old) }
    ensures len { length (M.bytes mem.new) ≡ length (M.bytes mem.old) }
    ensures page { M.page_len mem.new ≡ M.page_len mem.old }
{
    let command = Command::of(entry, terms, stored.len())?;
    let mut spans = Spans::new();
    find_data(mem, entry, command.length(), &mut spans)?;
    match command {
        Command::Flush => Ok(()),
        Command::OnBlocks { action, extent } => {
            act(mem, stored, &spans, action, extent, terms.is_exhausted)
        }
        Command::DatasetManagement {
            ranges,
            block_size,
            deallocates,
        } => {
            let mut room = [0; 4096];
            let list = &mut room[..16 * ranges as usize];
            copy_in(mem, &spans, list);
            manage(stored, list, ranges, block_size, deallocates)
        }
    }
}
