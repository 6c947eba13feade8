//! The controllers of a file.
ghost use Rattle.std.specs.Prelude.{◌≡◌, ◌≢◌, ◌==◌, [], length, map, All, AllPairs, IfOk, false};
ghost use Rattle.toml.specs.View.{table_view};
ghost use Rattle.nv_file.specs.FileValue.{controller_entry_view};
ghost use Rattle.nv_file.specs.inner.SectionView.{tables_view};
ghost use Rattle.nv_file.specs.KeyChecks.{each, is_among};
ghost use Rattle.nv_file.specs.TableChecks.{cntlid_of, controller_checks, controller_value};
ghost use Rattle.nv_file.specs.inner.Reading.{IsCheckedUnlessMemory};
ghost use Rattle.nv_file.specs.IsFile.{IsControllerEntry};

use crate::error::SubsystemError;
use crate::feature_rule::features_of;
use crate::identity::identity_of;
use crate::key::Key;
use crate::section::Section;
use crate::smart_base::smart_or_zero;
use crate::table_name::TableName;
use nv_model::{FeatureRule, Identity, SmartBase};
use std::alloc::Global;
use toml::Table;

/// A controller of a file.
#[derive(Debug, Drop)]
pub struct ControllerEntry {
    pub identity: Identity,
    /// The rules of the features that have a table, each at most once.
    pub rules: Vec<FeatureRule>,
    /// The health log, which is all zeros if the file has none.
    pub smart: SmartBase,
}

#[tactic(auto, using(crate::proofs::CheckLaws::faults), unfolding(crate::proofs::Opens::controller))]
fn controller_entry_of(
    alloc: Global,
    version: u8,
    before: &[ControllerEntry],
    table: &Table,
) -> Result<ControllerEntry, SubsystemError>
    ensures exact { IsCheckedUnlessMemory controller_entry_view
        (controller_checks version (map (λ c. c.identity.cntlid) before.now) (table_view table.now))
        (controller_value (table_view table.now)) result }
    ensures sound { IfOk result (λ c. IsControllerEntry (controller_entry_view c)) }
    ensures new { IfOk result
        (λ c. is_among (map (λ d. d.identity.cntlid) before.now) c.identity.cntlid ≡ false) }
{
    let section = Section {
        name: TableName::Controller,
        table,
    };
    let identity = identity_of(alloc, before, table)?;
    let features = section.tables_or_none(alloc, Key::Feature)?;
    let smart = section.table_or_none(Key::Smart)?;
    section.only_known()?;
    let rules = features_of(alloc, version, identity.numbers.wctemp, &features)?;
    let smart = smart_or_zero(alloc, smart)?;
    Ok(ControllerEntry {
        identity,
        rules,
        smart,
    })
}

/// Reads the controllers in some tables, by the file's version.
pub(crate) fn controller_entries_of(
    alloc: Global,
    version: u8,
    tables: &[&Table],
) -> Result<Vec<ControllerEntry>, SubsystemError>
    ensures exact { IsCheckedUnlessMemory (λ v. map controller_entry_view v.items)
        (each cntlid_of (controller_checks version) [] (tables_view tables.now))
        (map controller_value (tables_view tables.now)) result }
    ensures count { IfOk result (λ v. length v.items ≡ length tables.now) }
    ensures sound { IfOk result (λ v. All IsControllerEntry (map controller_entry_view v.items)) }
    ensures cntlids { IfOk result
        (λ v. AllPairs (λ c d. c.identity.cntlid ≢ d.identity.cntlid)
        (map controller_entry_view v.items)) }
{
    let mut controllers = Vec::new(alloc);
    for table in tables {
        let controller = controller_entry_of(alloc, version, &controllers, table)?;
        controllers.push(controller)?;
    }
    Ok(controllers)
}
