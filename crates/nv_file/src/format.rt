//! The formats of a file.
ghost use Rattle.std.specs.Prelude.{◌≡◌, [], length, map, All, IfOk};
ghost use Rattle.toml.specs.View.{table_view};
ghost use Rattle.nv_file.specs.KeyChecks.{each};
ghost use Rattle.nv_file.specs.TableChecks.{format_checks, format_value};
ghost use Rattle.nv_file.specs.inner.Reading.{IsChecked, IsCheckedUnlessMemory};
ghost use Rattle.nv_file.specs.inner.SectionView.{tables_view};
ghost use Rattle.nv_model.specs.Ranges.{IsFormat};

use crate::error::SubsystemError;
use crate::key::Key;
use crate::section::Section;
use crate::table_name::TableName;
use nv_model::Format;
use std::alloc::Global;
use toml::Table;

#[tactic(auto, using(crate::proofs::CheckLaws::faults), unfolding(crate::proofs::Opens::table))]
fn format_of(table: &Table) -> Result<Format, SubsystemError>
    ensures exact { IsChecked (λ f. f) (format_checks (table_view table.now))
        (format_value (table_view table.now)) result }
    ensures sound { IfOk result IsFormat }
{
    let section = Section {
        name: TableName::Format,
        table,
    };
    let lbads = section.integer(Key::Lbads, 9, 16)? as u8;
    let ms = section.integer_or(Key::Ms, 0, 0, 65535)? as u16;
    let rp = section.integer_or(Key::Rp, 0, 0, 3)? as u8;
    section.only_known()?;
    Ok(Format { lbads, ms, rp })
}

/// Reads the formats in some tables.
pub(crate) fn formats_of(alloc: Global, tables: &[&Table]) -> Result<Vec<Format>, SubsystemError>
    ensures exact { IsCheckedUnlessMemory (λ v. v.items)
        (each (λ _. 0) (λ _. format_checks) [] (tables_view tables.now))
        (map format_value (tables_view tables.now)) result }
    ensures count { IfOk result (λ v. length v.items ≡ length tables.now) }
    ensures sound { IfOk result (λ v. All IsFormat v.items) }
{
    let mut formats = Vec::new(alloc);
    for table in tables {
        let format = format_of(table)?;
        formats.push(format)?;
    }
    Ok(formats)
}
