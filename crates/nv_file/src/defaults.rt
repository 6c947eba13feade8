//! The default values of the features of a file.
ghost use Rattle.std.specs.Prelude.{◌≡◌, ◌==◌, ◌&&◌, ◌≤◌, ℕ, true, not, All, IfOk, IsSomeAnd, length};
ghost use Rattle.toml.specs.Data.{as_array};
ghost use Rattle.toml.specs.View.{table_view};
ghost use Rattle.nv_layout.specs.Feature.{feature_of, is_value};
ghost use Rattle.nv_model.specs.Values.{AreDefaults, AreThresholds, are_lists, default_at};
ghost use Rattle.nv_file.specs.TableChecks.{default_over, defaults_checks, defaults_value, fid_of};
ghost use Rattle.nv_file.specs.TableChecks.{nine, thresholds, thresholds_at};
ghost use Rattle.nv_file.specs.inner.FirstChecks.{first_defaults_checks};
ghost use Rattle.nv_file.specs.KeyChecks.{number_at, of_kind};
ghost use Rattle.nv_file.specs.inner.Reading.{IsCheckedBeforeMemory};

use crate::error::SubsystemError;
use crate::key::Key;
use crate::section::Section;
use crate::smart_base::number_at;
use crate::table_name::TableName;
use nv_model::Defaults;
use std::alloc::Global;
use toml::Table;

fn nine(numbers: &[u16]) -> [u16; 9]
    ensures exact { result ≡ nine numbers.now }
    ensures sound { AreThresholds result }
{
    [
        number_at(numbers, 0),
        number_at(numbers, 1),
        number_at(numbers, 2),
        number_at(numbers, 3),
        number_at(numbers, 4),
        number_at(numbers, 5),
        number_at(numbers, 6),
        number_at(numbers, 7),
        number_at(numbers, 8),
    ]
}

/// Returns the value of a key of Temperature Threshold, or its default if the key is missing.
#[tactic(auto, using(crate::proofs::CheckLaws::faults), unfolding(crate::proofs::Opens::part))]
fn thresholds_or(
    alloc: Global,
    default: [u16; 9],
    key: Key,
    fid: u8,
    table: &Table,
) -> Result<[u16; 9], SubsystemError>
    requires fid { fid ≡ fid_of (table_view table.now) }
    requires default { AreThresholds default }
    ensures exact { IsCheckedBeforeMemory (λ n. n)
        (of_kind TableName.Feature key as_array (table_view table.now))
        (thresholds key (table_view table.now))
        (thresholds_at key default (table_view table.now)) result }
    ensures sound { IfOk result AreThresholds }
{
    let section = Section {
        name: TableName::Feature,
        table,
    };
    let integers = section.integers_or_none(alloc, key)?;
    let is_there = section.has(key);
    let fits = !is_there || (fid == 0x04 && integers.len() == 9);
    section.in_limits(key, fits)?;
    let numbers = section.each_in_range(alloc, key, 65535, &integers)?;
    Ok(if is_there { nine(&numbers) } else { default })
}

fn default_over(wctemp: u16) -> [u16; 9]
    ensures exact { result ≡ default_over wctemp }
    ensures sound { AreThresholds result }
{
    [
        wctemp, 65535, 65535, 65535, 65535, 65535, 65535, 65535, 65535,
    ]
}

/// Returns the defaults of a feature, where `value` is the value of its key `default`.
#[tactic(auto, using(crate::proofs::CheckLaws::faults), unfolding(crate::proofs::Opens::defaults))]
pub(crate) fn defaults_of(
    alloc: Global,
    version: u8,
    wctemp: u16,
    fid: u8,
    value: u32,
    table: &Table,
) -> Result<Defaults, SubsystemError>
    requires fid { fid ≡ fid_of (table_view table.now) }
    requires default { value ≡ number_at Key.Default 0 (table_view table.now) }
    requires value { IsSomeAnd (feature_of fid) (λ f. is_value f value ≡ true) }
    requires in_version { not ((version == 1) && (fid == 0x04)) ≡ true }
    ensures exact { IsCheckedBeforeMemory (λ d. d)
        (first_defaults_checks version (table_view table.now))
        (defaults_checks version (table_view table.now))
        (defaults_value wctemp (table_view table.now)) result }
    ensures sound { IfOk result AreDefaults }
    ensures lists { IfOk result (λ d. are_lists d ≡ (fid == 0x04)) }
    ensures values { IfOk result (λ d. IsSomeAnd (feature_of fid)
        (λ f. (s : ℕ) → is_value f (default_at d s) ≡ true)) }
{
    if version == 1 {
        return Ok(Defaults::One(value));
    }
    let over = thresholds_or(alloc, default_over(wctemp), Key::Over, fid, table)?;
    let under = thresholds_or(alloc, nine(&[]), Key::Under, fid, table)?;
    Ok(if fid == 0x04 {
        Defaults::Thresholds { over, under }
    } else {
        Defaults::One(value)
    })
}
