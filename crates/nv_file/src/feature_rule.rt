//! The features of a controller of a file.
ghost use Rattle.std.specs.Prelude.{◌≡◌, ◌≢◌, ◌==◌, ◌&&◌, ◌++◌, not, [], map};
ghost use Rattle.std.specs.Prelude.{All, AllPairs, IfOk, Some, false, is_some};
ghost use Rattle.toml.specs.View.{table_view};
ghost use Rattle.nv_layout.specs.Feature.{feature_of, is_value};
ghost use Rattle.nv_file.specs.KeyChecks.{each, has_key, in_limits, is_among};
ghost use Rattle.nv_file.specs.TableChecks.{feature_checks, feature_value, fid_of};
ghost use Rattle.nv_file.specs.TableChecks.{first_feature_checks};
ghost use Rattle.nv_file.specs.inner.FirstChecks.{first_defaults_checks};
ghost use Rattle.nv_file.specs.inner.Reading.{IsChecked, IsCheckedBeforeMemory, IsCheckedUnlessMemory};
ghost use Rattle.nv_file.specs.inner.SectionView.{tables_view};
ghost use Rattle.nv_model.specs.Ranges.{IsFeatureRule};

use crate::defaults::defaults_of;
use crate::error::{SubsystemError, ensure};
use crate::key::Key;
use crate::section::Section;
use crate::table_name::{TableName, feature_keys};
use nv_layout::Feature;
use nv_model::FeatureRule;
use std::alloc::Global;
use toml::Table;

fn has_fid(rules: &[FeatureRule], fid: u8) -> bool
    ensures { result ≡ is_among (map (λ r. r.fid) rules.now) fid }
{
    rules.iter().any(|rule| rule.fid == fid)
}

/// Returns the feature with an identifier.
#[tactic(auto, using(crate::proofs::CheckLaws::faults))]
fn known_feature(section: &Section, fid: u8) -> Result<Feature, SubsystemError>
    ensures { IsChecked (λ f. Some f)
        (in_limits section.now.name Key.Fid (is_some (feature_of fid))) (feature_of fid) result }
{
    match Feature::of(fid) {
        Some(feature) => Ok(feature),
        None => Err(section.out_of_range(Key::Fid)),
    }
}

/// Returns whether a version of the file knows a feature, which may have thresholds.
fn is_in_version(version: u8, has_thresholds: bool) -> bool
    ensures { result ≡ not ((version == 1) && has_thresholds) }
{
    !(version == 1 && has_thresholds)
}

/// Returns whether this is a valid default. The table of a feature with thresholds must not have
/// the key `default`.
fn may_default(section: &Section, feature: Feature, has_thresholds: bool, default: u32) -> bool
    ensures { result ≡ (is_value feature default
        && not (has_thresholds && has_key Key.Default (table_view section.now.table.now))) }
{
    feature.is_value(default) && !(has_thresholds && section.has(Key::Default))
}

/// Returns whether a feature may have this value of `saveable`, which must be false for Error
/// Recovery.
fn may_save(fid: u8, saveable: bool) -> bool
    ensures { result ≡ not (saveable && (fid == 0x05)) }
{
    !(saveable && fid == 0x05)
}

#[tactic(auto, using(crate::proofs::CheckLaws::faults), unfolding(crate::proofs::Opens::whole))]
fn feature_of(
    alloc: Global,
    version: u8,
    wctemp: u16,
    before: &[FeatureRule],
    table: &Table,
) -> Result<FeatureRule, SubsystemError>
    ensures exact { IsCheckedBeforeMemory (λ r. r)
        (first_feature_checks version (map (λ r. r.fid) before.now) (table_view table.now)
        ++ first_defaults_checks version (table_view table.now))
        (feature_checks version (map (λ r. r.fid) before.now) (table_view table.now))
        (feature_value wctemp (table_view table.now)) result }
    ensures sound { IfOk result IsFeatureRule }
    ensures new { IfOk result (λ r. is_among (map (λ s. s.fid) before.now) r.fid ≡ false) }
{
    let section = Section {
        name: TableName::Feature,
        table,
    };
    let fid = section.integer(Key::Fid, 0, 255)? as u8;
    let feature = known_feature(&section, fid)?;
    let has_thresholds = fid == 0x04;
    section.in_limits(Key::Fid, is_in_version(version, has_thresholds))?;
    ensure(!has_fid(before, fid), section.repeated(Key::Fid))?;
    let default = section.integer_or(Key::Default, 0, 0, 4294967295)? as u32;
    let may_default = may_default(&section, feature, has_thresholds, default);
    section.in_limits(Key::Default, may_default)?;
    let saveable = section.flag_or(Key::Saveable, false)?;
    section.in_limits(Key::Saveable, may_save(fid, saveable))?;
    let changeable = section.flag_or(Key::Changeable, true)?;
    let defaults = defaults_of(alloc, version, wctemp, fid, default, table)?;
    section.only(feature_keys(version))?;
    Ok(FeatureRule {
        fid,
        defaults,
        saveable,
        changeable,
    })
}

/// Reads the features in some tables of a controller, by the file's version and the controller's
/// wctemp.
pub(crate) fn features_of(
    alloc: Global,
    version: u8,
    wctemp: u16,
    tables: &[&Table],
) -> Result<Vec<FeatureRule>, SubsystemError>
    ensures exact { IsCheckedUnlessMemory (λ v. v.items)
        (each fid_of (feature_checks version) [] (tables_view tables.now))
        (map (feature_value wctemp) (tables_view tables.now)) result }
    ensures sound { IfOk result (λ v. All IsFeatureRule v.items) }
    ensures fids { IfOk result (λ v. AllPairs (λ r s. r.fid ≢ s.fid) v.items) }
{
    let mut rules = Vec::new(alloc);
    for table in tables {
        let rule = feature_of(alloc, version, wctemp, &rules, table)?;
        rules.push(rule)?;
    }
    Ok(rules)
}
