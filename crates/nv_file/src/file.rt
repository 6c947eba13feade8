//! The subsystem file: what it holds, or its first fault.
ghost use Rattle.std.specs.Prelude.{◌≡◌, IfOk, nat_le, sum_by, false};
ghost use Rattle.std.specs.Option.{ok_or};
ghost use Rattle.std.specs.Str.{is_utf8};
ghost use Rattle.toml.specs.Data.{no_members};
ghost use Rattle.toml.specs.Errors.{IsBlank};
ghost use Rattle.toml.specs.Parse.{parse_document};
ghost use Rattle.toml.specs.View.{table_view};
ghost use Rattle.nv_layout.specs.UnlessMemory.{IsUnlessMemory};
ghost use Rattle.nv_file.specs.FileValue.{file_view};
ghost use Rattle.nv_file.specs.File.{IsBlankText, document, file, file_checks, file_value};
ghost use Rattle.nv_file.specs.File.{first_top_checks, no_version};
ghost use Rattle.nv_file.specs.inner.Reading.{IsAnswer, IsCheckedBeforeMemory};
ghost use Rattle.nv_file.specs.IsFile.{IsFile};

use crate::attachment::attaches;
use crate::controller::{ControllerEntry, controller_entries_of};
use crate::error::{SubsystemError, ensure};
use crate::format::formats_of;
use crate::namespace::{NamespaceEntry, namespace_entries_of};
use crate::top::top_of;
use nv_model::Format;
use std::alloc::Global;
use toml::Table;

/// The contents of a file.
#[derive(Debug, Drop)]
pub struct File {
    /// The greatest NSID, 1 to 1024.
    pub nn: u32,
    /// The capacity of the subsystem in bytes.
    pub tnvmcap: u64,
    /// Where the metadata of a logical block can be placed.
    pub mc: u8,
    /// The name of the subsystem, 1 to 223 bytes.
    pub subnqn: String,
    /// The formats of logical blocks, 1 to 16.
    pub formats: Vec<Format>,
    /// The controllers, 1 to 16, in the order of the file.
    pub controllers: Vec<ControllerEntry>,
    /// The namespaces in the order of the file, at most `nn`.
    pub namespaces: Vec<NamespaceEntry>,
}

/// Returns the top table of a text.
fn parsed(alloc: Global, text: &str) -> Result<Table, SubsystemError>
    ensures exact { IsUnlessMemory SubsystemError.Memory table_view result
        (ok_or (parse_document text.now) SubsystemError.NotToml) }
    ensures blank { IsBlank text.now → IsAnswer table_view result (Ok no_members) }
{
    match toml::table_from_str(alloc, text) {
        Ok(table) => Ok(table),
        Err(error) => {
            if error.is_memory() {
                Err(SubsystemError::Memory)
            } else {
                Err(SubsystemError::NotToml)
            }
        }
    }
}

/// Returns the top table of a document. Bytes that aren't UTF-8 are refused before anything is
/// allocated.
fn document(alloc: Global, bytes: &[u8]) -> Result<Table, SubsystemError>
    ensures exact { IsUnlessMemory SubsystemError.Memory table_view result (document bytes.now) }
    ensures text { is_utf8 bytes.now ≡ false → result ≡ Err SubsystemError.NotToml }
    ensures blank { IsBlankText bytes.now → IsAnswer table_view result (Ok no_members) }
{
    match str::from_utf8(bytes) {
        Ok(text) => parsed(alloc, text),
        Err(_) => Err(SubsystemError::NotToml),
    }
}

/// Returns whether the capacities add up to no more than there is.
fn fits(tnvmcap: u64, namespaces: &[NamespaceEntry]) -> bool
    ensures { result ≡ nat_le (sum_by (λ n. n.namespace.capacity) namespaces.now) tnvmcap }
{
    let mut left = tnvmcap;
    for entry in namespaces {
        let capacity = entry.namespace.capacity;
        if capacity > left {
            return false;
        }
        left -= capacity;
    }
    true
}

#[tactic(auto, using(crate::proofs::Fused::file_laws), unfolding(crate::proofs::Opens::file))]
fn file_of(alloc: Global, table: &Table) -> Result<File, SubsystemError>
    ensures exact { IsCheckedBeforeMemory file_view (first_top_checks (table_view table.now))
        (file_checks (table_view table.now)) (file_value (table_view table.now)) result }
    ensures sound { IfOk result (λ f. IsFile (file_view f)) }
{
    let top = top_of(alloc, table)?;
    let formats = formats_of(alloc, &top.formats)?;
    let controllers = controller_entries_of(alloc, top.version, &top.controllers)?;
    let namespaces = namespace_entries_of(alloc, top.nn, top.mc, &formats, &top.namespaces)?;
    ensure(fits(top.tnvmcap, &namespaces), SubsystemError::Capacity)?;
    ensure(
        attaches(&controllers, &namespaces),
        SubsystemError::Attachment,
    )?;
    Ok(File {
        nn: top.nn,
        tnvmcap: top.tnvmcap,
        mc: top.mc,
        subnqn: top.subnqn,
        formats,
        controllers,
        namespaces,
    })
}

impl File {
    /// Returns what the bytes of a file hold, or its first fault, unless memory runs out. Faults that are
    /// found before anything is allocated are returned regardless of memory: bytes that aren't UTF-8,
    /// and a text of white space and comments alone.
    #[tactic(auto, unfolding(crate::specs::File::file))]
    pub fn from_toml(alloc: Global, bytes: &[u8]) -> Result<File, SubsystemError>
        ensures exact { IsUnlessMemory SubsystemError.Memory file_view result (file bytes.now) }
        ensures text { is_utf8 bytes.now ≡ false → result ≡ Err SubsystemError.NotToml }
        ensures blank { IsBlankText bytes.now → result ≡ Err no_version }
        ensures sound { IfOk result (λ f. IsFile (file_view f)) }
    {
        let table = document(alloc, bytes)?;
        file_of(alloc, &table)
    }
}
