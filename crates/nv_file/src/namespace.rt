//! The namespaces of a file.
ghost use Rattle.std.specs.Prelude.{◌≡◌, ◌≢◌, ◌==◌, ◌≤◌, ◌^◌, ◌++◌, [], length, map, slice_get, All};
ghost use Rattle.std.specs.Prelude.{AllPairs, IfOk, Some, false, is_some};
ghost use Rattle.toml.specs.Data.{as_array};
ghost use Rattle.toml.specs.View.{table_view};
ghost use Rattle.nv_file.specs.FileValue.{namespace_entry_view};
ghost use Rattle.nv_file.specs.inner.SectionView.{tables_view};
ghost use Rattle.nv_model.specs.Conditions.{may_extend};
ghost use Rattle.nv_model.specs.Ranges.{IsFormat};
ghost use Rattle.nv_file.specs.KeyChecks.{each, in_limits, is_among, of_kind};
ghost use Rattle.nv_file.specs.TableChecks.{first_namespace_checks, namespace_checks};
ghost use Rattle.nv_file.specs.TableChecks.{namespace_value, nsid_of};
ghost use Rattle.nv_file.specs.inner.Reading.{IsChecked, IsCheckedBeforeMemory, IsCheckedUnlessMemory};
ghost use Rattle.nv_file.specs.IsFile.{IsNamespaceEntry};

use crate::error::{SubsystemError, ensure};
use crate::key::Key;
use crate::section::Section;
use crate::table_name::TableName;
use nv_model::{Format, GREATEST_INTEGER, Namespace};
use std::alloc::Global;
use toml::Table;

/// A namespace of a file, with the identifiers of the controllers that it is attached to.
#[derive(Debug, Drop)]
pub struct NamespaceEntry {
    pub nsid: u32,
    pub namespace: Namespace,
    /// The identifiers of the controllers, as the file lists them.
    pub controllers: Vec<i64>,
}

impl NamespaceEntry {
    ghost use Rattle.nv_file.specs.FileValue.{is_attached_to};

    /// Returns whether the list has the controller with this identifier.
    pub fn is_attached_to(&self, cntlid: u16) -> bool
        ensures { result ≡ is_attached_to cntlid (namespace_entry_view self.now) }
    {
        self.controllers
            .iter()
            .any(|number| *number == i64::from(cntlid))
    }
}

fn format_at(formats: &[Format], index: u8) -> Result<Format, SubsystemError>
    requires { All IsFormat formats.now }
    ensures exact { IsChecked (λ f. Some f)
        (in_limits TableName.Namespace Key.Format (is_some (slice_get formats.now index)))
        (slice_get formats.now index) result }
    ensures sound { IfOk result IsFormat }
    ensures at { IfOk result (λ f. slice_get formats.now index ≡ Some f) }
{
    match formats.get(index as usize) {
        Some(format) => Ok(*format),
        None => Err(SubsystemError::Range {
            table: TableName::Namespace,
            key: Key::Format,
        }),
    }
}

fn has_nsid(namespaces: &[NamespaceEntry], nsid: u32) -> bool
    ensures { result ≡ is_among (map (λ n. n.nsid) namespaces.now) nsid }
{
    namespaces.iter().any(|namespace| namespace.nsid == nsid)
}

fn block_size(format: &Format) -> u64
    requires { format.now.lbads ≤ 16 }
    ensures { result ≡ 2 ^ format.now.lbads }
{
    1u64 << format.lbads
}

fn may_extend(mc: u8, format: &Format, extended: bool) -> bool
    ensures { result ≡ may_extend mc format.now extended }
{
    !extended || (format.ms > 0 && mc & 1 == 1)
}

#[tactic(auto, using(crate::proofs::CheckLaws::faults), unfolding(crate::proofs::Opens::table))]
fn namespace_entry_of(
    alloc: Global,
    nn: u32,
    mc: u8,
    formats: &[Format],
    before: &[NamespaceEntry],
    table: &Table,
) -> Result<NamespaceEntry, SubsystemError>
    requires { All IsFormat formats.now }
    ensures exact { IsCheckedBeforeMemory namespace_entry_view
        (first_namespace_checks nn mc formats.now (map (λ n. n.nsid) before.now)
        (table_view table.now)
        ++ of_kind TableName.Namespace Key.Controllers as_array (table_view table.now))
        (namespace_checks nn mc formats.now (map (λ n. n.nsid) before.now) (table_view table.now))
        (namespace_value (table_view table.now)) result }
    ensures sound { IfOk result (λ n. IsNamespaceEntry nn mc formats.now (namespace_entry_view n)) }
    ensures new { IfOk result (λ n. is_among (map (λ m. m.nsid) before.now) n.nsid ≡ false) }
{
    let section = Section {
        name: TableName::Namespace,
        table,
    };
    let nsid = section.integer(Key::Nsid, 1, nn as u64)? as u32;
    ensure(!has_nsid(before, nsid), section.repeated(Key::Nsid))?;
    let format = section.integer(Key::Format, 0, 15)? as u8;
    let in_use = format_at(formats, format)?;
    let capacity = section.integer(Key::Bytes, block_size(&in_use), GREATEST_INTEGER)?;
    let extended = section.flag_or(Key::Extended, false)?;
    section.in_limits(Key::Extended, may_extend(mc, &in_use, extended))?;
    let shared = section.flag_or(Key::Shared, false)?;
    let controllers = section.integers_or_none(alloc, Key::Controllers)?;
    section.only_known()?;
    Ok(NamespaceEntry {
        nsid,
        namespace: Namespace {
            capacity,
            format,
            extended,
            shared,
        },
        controllers,
    })
}

/// Reads the namespaces in some tables, in a subsystem with `nn`, `mc` and the formats.
pub(crate) fn namespace_entries_of(
    alloc: Global,
    nn: u32,
    mc: u8,
    formats: &[Format],
    tables: &[&Table],
) -> Result<Vec<NamespaceEntry>, SubsystemError>
    requires { All IsFormat formats.now }
    ensures exact { IsCheckedUnlessMemory (λ v. map namespace_entry_view v.items)
        (each nsid_of (namespace_checks nn mc formats.now) [] (tables_view tables.now))
        (map namespace_value (tables_view tables.now)) result }
    ensures count { IfOk result (λ v. length v.items ≡ length tables.now) }
    ensures sound { IfOk result
        (λ v. All (IsNamespaceEntry nn mc formats.now) (map namespace_entry_view v.items)) }
    ensures nsids { IfOk result
        (λ v. AllPairs (λ m n. m.nsid ≢ n.nsid) (map namespace_entry_view v.items)) }
{
    let mut namespaces = Vec::new(alloc);
    for table in tables {
        let namespace = namespace_entry_of(alloc, nn, mc, formats, &namespaces, table)?;
        namespaces.push(namespace)?;
    }
    Ok(namespaces)
}
