//! The top table of a file.
ghost use Rattle.std.specs.Prelude.{IfOk};
ghost use Rattle.toml.specs.View.{table_view};
ghost use Rattle.nv_file.specs.File.{first_top_checks, top_checks};
ghost use Rattle.nv_file.specs.inner.Reading.{IsCheckedBeforeMemory};
ghost use Rattle.nv_file.specs.inner.TopView.{top_value, top_view};
ghost use Rattle.nv_file.specs.inner.IsFile.{IsTop};

use crate::error::SubsystemError;
use crate::key::Key;
use crate::section::Section;
use crate::table_name::TableName;
use nv_model::GREATEST_INTEGER;
use std::alloc::Global;
use toml::Table;

/// The contents of the top table, before the tables in it are read.
#[derive(Drop)]
pub struct Top<'a> {
    pub version: u8,
    pub nn: u32,
    pub tnvmcap: u64,
    pub mc: u8,
    pub subnqn: String,
    pub formats: Vec<&'a Table>,
    pub controllers: Vec<&'a Table>,
    pub namespaces: Vec<&'a Table>,
}

/// What the top table holds.
#[tactic(auto, using(crate::proofs::CheckLaws::faults), unfolding(crate::specs::File::top_checks))]
pub(crate) fn top_of<'a>(alloc: Global, table: &'a Table) -> Result<Top<'a>, SubsystemError>
    ensures exact { IsCheckedBeforeMemory top_view (first_top_checks (table_view table.now))
        (top_checks (table_view table.now)) (top_value (table_view table.now)) result }
    ensures sound { IfOk result (λ t. IsTop (top_view t)) }
{
    let section = Section {
        name: TableName::Top,
        table,
    };
    let version = section.integer(Key::Version, 1, 2)? as u8;
    let nn = section.integer(Key::Nn, 1, 1024)? as u32;
    let tnvmcap = section.integer(Key::Tnvmcap, 0, GREATEST_INTEGER)?;
    let mc = section.integer_or(Key::Mc, 0, 0, 3)? as u8;
    let subnqn = section.text(alloc, Key::Subnqn, 223)?;
    let formats = section.tables(alloc, Key::Format, 16)?;
    let controllers = section.tables(alloc, Key::Controller, 16)?;
    let namespaces = section.tables_or_none(alloc, Key::Namespace)?;
    section.in_limits(Key::Namespace, namespaces.len() <= nn as usize)?;
    section.only_known()?;
    Ok(Top {
        version,
        nn,
        tnvmcap,
        mc,
        subnqn,
        formats,
        controllers,
        namespaces,
    })
}
