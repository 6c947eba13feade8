//! What entries ask for.

ghost use Rattle.std.specs.Prelude.{◌≡◌, ◌+◌, ◌*◌, ◌<◌, ◌≤◌, ℕ, IfOk};
ghost use Rattle.nv_blocks.specs.inner.Command.{IsWithin};
ghost use Rattle.nv_blocks.specs.Command.{block_count, command_of, data_set, deallocates};
ghost use Rattle.nv_blocks.specs.Command.{extent_within, first_block, has_data, is_within, length_of};
ghost use Rattle.nv_blocks.specs.Command.{namespace_of, on_blocks, opcode_of, range_count, reserved_of};
ghost use Rattle.nv_blocks.specs.Command.{sets_reserved};

use crate::refusal::Refusal;
use crate::terms::{Namespace, Terms};
use nv_layout::Sqe;

/// What is done with blocks.
#[derive(Clone, Copy, Debug, PartialEq, Eq)]
pub enum Action {
    Read,
    Write,
    Compare,
    WriteZeroes,
    Verify,
}

/// The known opcodes. Section "Opcodes for NVM Commands".
#[derive(Clone, Copy, Debug, PartialEq, Eq)]
pub enum Opcode {
    Flush,
    OnBlocks(Action),
    DatasetManagement,
}

/// Consecutive bytes of a namespace's data.
#[derive(Clone, Copy, Debug, PartialEq, Eq)]
pub struct Extent {
    pub start: usize,
    pub len: usize,
}

/// What an entry asks for, in the bytes of the namespace's data.
#[derive(Clone, Copy, Debug, PartialEq, Eq)]
pub enum Command {
    Flush,
    OnBlocks {
        action: Action,
        extent: Extent,
    },
    /// The host sends this number of ranges, of blocks with this size.
    DatasetManagement {
        ranges: u16,
        block_size: u32,
        deallocates: bool,
    },
}

/// The bits of the dwords 10 to 15 of a command that are reserved.
#[derive(Clone, Copy)]
pub struct Reserved {
    pub cdw10: u32,
    pub cdw11: u32,
    pub cdw12: u32,
    pub cdw13: u32,
    pub cdw14: u32,
    pub cdw15: u32,
}

/// No bit of a dword.
const NONE: u32 = 0;
/// All bits of a dword.
const ALL: u32 = 0xffff_ffff;

impl Opcode {
    /// Returns the opcode of an entry, if it is known and the entry is neither fused nor uses SGLs.
    pub(crate) fn of(entry: &Sqe) -> Result<Opcode, Refusal>
        ensures { result ≡ opcode_of entry.now }
    {
        let opcode = match entry.opcode {
            0x00 => Opcode::Flush,
            0x01 => Opcode::OnBlocks(Action::Write),
            0x02 => Opcode::OnBlocks(Action::Read),
            0x05 => Opcode::OnBlocks(Action::Compare),
            0x08 => Opcode::OnBlocks(Action::WriteZeroes),
            0x09 => Opcode::DatasetManagement,
            0x0c => Opcode::OnBlocks(Action::Verify),
            _ => return Err(Refusal::InvalidCommandOpcode),
        };
        if entry.fuse != 0 || entry.psdt != 0 {
            return Err(Refusal::InvalidFieldInCommand);
        }
        Ok(opcode)
    }

    /// Returns the reserved bits of the command's dwords.
    fn reserved(self) -> Reserved
        ensures { result ≡ reserved_of self }
    {
        let (cdw10, cdw11, cdw12, cdw13, cdw14, cdw15) = match self {
            Opcode::Flush => (ALL, ALL, ALL, ALL, ALL, ALL),
            Opcode::OnBlocks(Action::Write) => (NONE, NONE, 0x030f_0000, 0x0000_ff00, NONE, NONE),
            Opcode::OnBlocks(Action::Read) => (NONE, NONE, 0x03ff_0000, 0xffff_ff00, NONE, NONE),
            Opcode::OnBlocks(Action::WriteZeroes) => (NONE, NONE, 0x01ff_0000, ALL, NONE, NONE),
            Opcode::OnBlocks(Action::Compare | Action::Verify) => (
                NONE,
                NONE,
                0x03ff_0000,
                ALL,
                NONE,
                NONE,
            ),
            Opcode::DatasetManagement => (0xffff_ff00, 0xffff_fff8, ALL, ALL, ALL, ALL),
        };
        Reserved {
            cdw10,
            cdw11,
            cdw12,
            cdw13,
            cdw14,
            cdw15,
        }
    }

    /// Returns whether an entry with this opcode sets a reserved bit.
    fn sets_reserved(self, entry: &Sqe) -> bool
        ensures { result ≡ sets_reserved self entry.now }
    {
        let reserved = self.reserved();
        entry.cdw10 & reserved.cdw10 != 0
            || entry.cdw11 & reserved.cdw11 != 0
            || entry.cdw12 & reserved.cdw12 != 0
            || entry.cdw13 & reserved.cdw13 != 0
            || entry.cdw14 & reserved.cdw14 != 0
            || entry.cdw15 & reserved.cdw15 != 0
    }
}

impl Action {
    /// Returns whether data is transferred.
    fn has_data(self) -> bool
        ensures { result ≡ has_data self }
    {
        matches!(self, Action::Read | Action::Write | Action::Compare)
    }
}

/// Returns the namespace that is lent, if it has this NSID.
fn namespace_of(terms: &Terms, nsid: u32) -> Result<Namespace, Refusal>
    ensures { result ≡ namespace_of terms.now nsid }
{
    match terms.namespace {
        Some(namespace) if namespace.nsid == nsid => Ok(namespace),
        _ => Err(Refusal::InvalidNamespaceOrFormat),
    }
}

/// Returns whether a range of blocks lies within a number of blocks.
pub(crate) fn is_within(blocks: u64, first: u64, count: u64) -> bool
    ensures { result ≡ is_within blocks first count }
{
    first <= blocks && count <= blocks - first
}

/// Returns the bytes of a range of blocks of this size, if they lie within `size` bytes.
#[tactic(auto, using(crate::proofs::BlockLaws::blocks_inside))]
pub(crate) fn extent_within(
    size: usize,
    block_size: u32,
    first: u64,
    count: u64,
) -> Result<Extent, Refusal>
    requires { 0 < block_size }
    ensures found { result ≡ extent_within size block_size first count }
    ensures inside { IfOk result (λ extent. extent.start + extent.len ≤ size) }
    ensures len { IfOk result (λ extent. extent.len ≡ count * block_size) }
{
    if !is_within(size as u64 / u64::from(block_size), first, count) {
        return Err(Refusal::LbaOutOfRange);
    }
    Ok(Extent {
        start: first as usize * block_size as usize,
        len: count as usize * block_size as usize,
    })
}

/// Returns the first block of an entry (SLBA).
fn first_block(entry: &Sqe) -> u64
    ensures { result ≡ first_block entry.now }
{
    u64::from(entry.cdw11) * 0x1_0000_0000 + u64::from(entry.cdw10)
}

/// Returns how many blocks an entry names (NLB, plus 1).
fn block_count(entry: &Sqe) -> u32
    ensures value { result ≡ block_count entry.now }
    ensures some { 0 < result }
    ensures few { result ≤ 65536 }
{
    entry.cdw12 % 0x1_0000 + 1
}

/// Returns what an entry asks for with this action.
#[tactic(auto, unfolding(crate::specs::Command::on_blocks))]
fn on_blocks(
    action: Action,
    namespace: Namespace,
    limit: u32,
    size: usize,
    entry: &Sqe,
) -> Result<Command, Refusal>
    ensures found { result ≡ on_blocks action namespace limit size entry.now }
    ensures within { IfOk result (IsWithin limit size) }
{
    let count = u64::from(block_count(entry));
    if action.has_data() && u64::from(limit) < count * u64::from(namespace.block_size) {
        return Err(Refusal::InvalidFieldInCommand);
    }
    let extent = extent_within(size, namespace.block_size, first_block(entry), count)?;
    Ok(Command::OnBlocks { action, extent })
}

/// Returns what an entry with a list of ranges asks for.
#[tactic(auto, unfolding(crate::specs::Command::data_set))]
fn data_set(namespace: Namespace, limit: u32, size: usize, entry: &Sqe) -> Result<Command, Refusal>
    ensures found { result ≡ data_set namespace limit entry.now }
    ensures within { IfOk result (IsWithin limit size) }
{
    let ranges = (entry.cdw10 % 0x100) as u16 + 1;
    if limit < 16 * u32::from(ranges) {
        return Err(Refusal::InvalidFieldInCommand);
    }
    Ok(Command::DatasetManagement {
        ranges,
        block_size: namespace.block_size,
        deallocates: entry.cdw11 / 4 % 2 == 1,
    })
}

impl Command {
    /// Returns what an entry asks for of a namespace whose data has `size` bytes, or the status of
    /// the first rule that the entry breaks.
    #[tactic(auto, unfolding(crate::specs::Command::command_of))]
    pub(crate) fn of(entry: &Sqe, terms: &Terms, size: usize) -> Result<Command, Refusal>
        ensures found { result ≡ command_of terms.now size entry.now }
        ensures within { IfOk result (IsWithin terms.now.limit size) }
    {
        let opcode = Opcode::of(entry)?;
        let namespace = namespace_of(terms, entry.nsid)?;
        if opcode.sets_reserved(entry) {
            return Err(Refusal::InvalidFieldInCommand);
        }
        match opcode {
            Opcode::Flush => Ok(Command::Flush),
            Opcode::OnBlocks(action) => on_blocks(action, namespace, terms.limit, size, entry),
            Opcode::DatasetManagement => data_set(namespace, terms.limit, size, entry),
        }
    }

    /// Returns how many bytes are transferred.
    pub(crate) fn length(&self) -> usize
        ensures { result ≡ length_of self.now }
    {
        match self {
            Command::OnBlocks { action, extent } if action.has_data() => extent.len,
            Command::DatasetManagement { ranges, .. } => 16 * *ranges as usize,
            _ => 0,
        }
    }
}
