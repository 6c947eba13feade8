//! A table of the file, and the reading of one key of it.
ghost use Rattle.std.specs.Prelude.{◌≡◌, ◌≤◌, ◌&&◌, ◌++◌, nat_le, IfOk, IfErr, true, false, length, map};
ghost use Rattle.std.specs.Prelude.{[], is_some, option_map, string_bytes, unwrap_or};
ghost use Rattle.std.specs.List.{list_all, list_any};
ghost use Rattle.std.specs.Option.{option_map_or};
ghost use Rattle.std.specs.BTreeMap.{keys};
ghost use Rattle.std.specs.Str.{bytes_eq};
ghost use Rattle.toml.specs.Data.{get_member, as_array, as_bool, as_integer, as_table};
ghost use Rattle.toml.specs.View.{view, items_view, table_view};
ghost use Rattle.nv_file.specs.Check.{check};
ghost use Rattle.nv_file.specs.KeyChecks as row;
ghost use Rattle.nv_file.specs.KeyChecks.{has_key, has_only, is_within, number};
ghost use Rattle.nv_file.specs.Names.{key_text, keys_of};
ghost use Rattle.nv_file.specs.inner.Reading.{IsChecked, IsCheckedBeforeMemory};
ghost use Rattle.nv_file.specs.inner.Reading.{IsCheckedUnlessMemory, IsPassed};
ghost use Rattle.nv_file.specs.inner.SectionView.{tables_view};
ghost use Rattle.nv_model.specs.Ranges.{is_text};

use crate::error::{SubsystemError, ensure};
use crate::key::Key;
use crate::table_name::TableName;
use std::alloc::Global;
use toml::{Table, Value};

/// A table of the file, with the name that faults use for it.
#[derive(Clone, Copy)]
pub struct Section<'a> {
    pub name: TableName,
    pub table: &'a Table,
}

impl<'a> Section<'a> {
    /// Returns the value of a key.
    fn find(&self, key: Key) -> Option<&'a Value>
        ensures { option_map (λ v. view v.now) result ≡
            get_member (key_text key) (table_view self.now.table.now) }
    {
        self.table.get(key.text())
    }

    fn missing(&self, key: Key) -> SubsystemError
        ensures { result ≡ SubsystemError.Missing self.now.name key }
    {
        SubsystemError::Missing {
            table: self.name,
            key,
        }
    }

    fn wrong_kind(&self, key: Key) -> SubsystemError
        ensures { result ≡ SubsystemError.Kind self.now.name key }
    {
        SubsystemError::Kind {
            table: self.name,
            key,
        }
    }

    /// Returns the fault of a value that its key doesn't allow.
    pub(crate) fn out_of_range(&self, key: Key) -> SubsystemError
        ensures { result ≡ SubsystemError.Range self.now.name key }
    {
        SubsystemError::Range {
            table: self.name,
            key,
        }
    }

    /// Checks that a value is one that its key allows.
    #[tactic(auto, using(crate::proofs::CheckLaws::faults))]
    pub(crate) fn in_limits(&self, key: Key, holds: bool) -> Result<(), SubsystemError>
        ensures exact { IsPassed (row.in_limits self.now.name key holds) result }
        ensures sound { IfOk result (λ _. holds ≡ true) }
    {
        if holds {
            Ok(())
        } else {
            Err(self.out_of_range(key))
        }
    }

    /// Returns the fault of a value that an earlier row has.
    pub(crate) fn repeated(&self, key: Key) -> SubsystemError
        ensures { result ≡ SubsystemError.Repeated self.now.name key }
    {
        SubsystemError::Repeated {
            table: self.name,
            key,
        }
    }

    /// Returns a value as an integer from `low` to `high`.
    #[tactic(auto, using(crate::proofs::CheckLaws::faults))]
    fn integer_in_range(
        &self,
        key: Key,
        low: u64,
        high: u64,
        value: &Value,
    ) -> Result<u64, SubsystemError>
        ensures exact { IsChecked (λ n. n)
            (check (is_some (as_integer (view value.now))) (SubsystemError.Kind self.now.name key)
            ++ row.in_limits self.now.name key
            (option_map_or (is_within low high) (as_integer (view value.now)) true))
            (option_map_or number (as_integer (view value.now)) 0) result }
        ensures range { IfOk result (λ n. (low ≤ n) × (n ≤ high)) }
    {
        let integer = value.as_integer().ok_or(self.wrong_kind(key))?;
        self.in_limits(key, is_within(low, high, integer))?;
        Ok(integer as u64)
    }

    /// Returns a required integer from `low` to `high`.
    #[tactic(auto, using(crate::proofs::CheckLaws::faults), unfolding(crate::proofs::Opens::keys))]
    pub(crate) fn integer(&self, key: Key, low: u64, high: u64) -> Result<u64, SubsystemError>
        ensures exact { IsChecked (λ n. n)
            (row.integer self.now.name key low high (table_view self.now.table.now))
            (row.number_at key 0 (table_view self.now.table.now)) result }
        ensures range { IfOk result (λ n. (low ≤ n) × (n ≤ high)) }
    {
        let value = self.find(key).ok_or(self.missing(key))?;
        let number = self.integer_in_range(key, low, high, value)?;
        Ok(number)
    }

    /// Returns an optional integer from `low` to `high`.
    #[tactic(auto, using(crate::proofs::CheckLaws::faults), unfolding(crate::proofs::Opens::keys))]
    pub(crate) fn integer_or(
        &self,
        key: Key,
        default: u64,
        low: u64,
        high: u64,
    ) -> Result<u64, SubsystemError>
        requires low_default { low ≤ default }
        requires high_default { default ≤ high }
        ensures exact { IsChecked (λ n. n)
            (row.optional_integer self.now.name key low high (table_view self.now.table.now))
            (row.number_at key default (table_view self.now.table.now)) result }
        ensures range { IfOk result (λ n. (low ≤ n) × (n ≤ high)) }
    {
        let Some(value) = self.find(key) else {
            return Ok(default);
        };
        let number = self.integer_in_range(key, low, high, value)?;
        Ok(number)
    }

    /// Returns whether the table has a key.
    pub(crate) fn has(&self, key: Key) -> bool
        ensures { result ≡ has_key key (table_view self.now.table.now) }
    {
        self.find(key).is_some()
    }

    /// Returns an optional truth value.
    #[tactic(auto, using(crate::proofs::CheckLaws::faults), unfolding(crate::proofs::Opens::keys))]
    pub(crate) fn flag_or(&self, key: Key, default: bool) -> Result<bool, SubsystemError>
        ensures { IsChecked (λ b. b)
            (row.flag self.now.name key (table_view self.now.table.now))
            (row.flag_at key default (table_view self.now.table.now)) result }
    {
        let Some(value) = self.find(key) else {
            return Ok(default);
        };
        let flag = value.as_bool().ok_or(self.wrong_kind(key))?;
        Ok(flag)
    }

    /// Returns a required text of 1 to `most` bytes.
    #[tactic(auto, using(crate::proofs::CheckLaws::faults), unfolding(crate::proofs::Opens::keys))]
    pub(crate) fn text(
        &self,
        alloc: Global,
        key: Key,
        most: usize,
    ) -> Result<String, SubsystemError>
        ensures exact { let checks = row.text self.now.name key most (table_view self.now.table.now)
            in IsCheckedBeforeMemory string_bytes checks checks
            (row.text_at key (table_view self.now.table.now)) result }
        ensures sound { IfOk result (λ s. is_text most (string_bytes s) ≡ true) }
    {
        let value = self.find(key).ok_or(self.missing(key))?;
        let found = value.as_str().ok_or(self.wrong_kind(key))?;
        if is_text(most, found) {
            Ok(String::from_str(alloc, found)?)
        } else {
            Err(self.out_of_range(key))
        }
    }

    /// Returns the tables of a list.
    #[tactic(auto, using(crate::proofs::CheckLaws::faults))]
    fn tables_in(
        &self,
        alloc: Global,
        key: Key,
        value: &'a Value,
    ) -> Result<Vec<&'a Table>, SubsystemError>
        ensures { IsCheckedBeforeMemory (λ v. tables_view v.items)
            (check (is_some (as_array (view value.now))) (SubsystemError.Kind self.now.name key))
            (check (is_some (row.as_tables (view value.now))) (SubsystemError.Kind self.now.name key))
            (unwrap_or (row.as_tables (view value.now)) []) result }
    {
        let items: &[Value] = value.as_array().ok_or(self.wrong_kind(key))?;
        let mut tables = Vec::new(alloc);
        for item in items {
            tables.push(item.as_table().ok_or(self.wrong_kind(key))?)?;
        }
        Ok(tables)
    }

    /// Returns a required list of 1 to `most` tables.
    #[tactic(auto, using(crate::proofs::CheckLaws::faults), unfolding(crate::proofs::Opens::keys))]
    pub(crate) fn tables(
        &self,
        alloc: Global,
        key: Key,
        most: usize,
    ) -> Result<Vec<&'a Table>, SubsystemError>
        ensures exact { IsCheckedUnlessMemory (λ v. tables_view v.items)
            (row.tables self.now.name key most (table_view self.now.table.now))
            (row.tables_at key (table_view self.now.table.now)) result }
        ensures count { IfOk result (λ v. (1 ≤ length v.items) × (length v.items ≤ most)) }
    {
        let value = self.find(key).ok_or(self.missing(key))?;
        let tables = self.tables_in(alloc, key, value)?;
        if is_count(most, tables.len()) {
            Ok(tables)
        } else {
            Err(self.out_of_range(key))
        }
    }

    /// Returns an optional list of tables, of any length.
    #[tactic(auto, using(crate::proofs::CheckLaws::faults), unfolding(crate::proofs::Opens::keys))]
    pub(crate) fn tables_or_none(
        &self,
        alloc: Global,
        key: Key,
    ) -> Result<Vec<&'a Table>, SubsystemError>
        ensures { IsCheckedUnlessMemory (λ v. tables_view v.items)
            (row.of_kind self.now.name key row.as_tables (table_view self.now.table.now))
            (row.tables_at key (table_view self.now.table.now)) result }
    {
        let Some(value) = self.find(key) else {
            return Ok(Vec::new(alloc));
        };
        let tables = self.tables_in(alloc, key, value)?;
        Ok(tables)
    }

    /// Returns an optional table.
    #[tactic(auto, using(crate::proofs::CheckLaws::faults), unfolding(crate::specs::KeyChecks::of_kind))]
    pub(crate) fn table_or_none(&self, key: Key) -> Result<Option<&'a Table>, SubsystemError>
        ensures { IsChecked (λ o. option_map (λ t. table_view t.now) o)
            (row.of_kind self.now.name key as_table (table_view self.now.table.now))
            (row.at as_table key (table_view self.now.table.now)) result }
    {
        match self.find(key) {
            Some(value) => match value.as_table() {
                Some(table) => Ok(Some(table)),
                None => Err(self.wrong_kind(key)),
            },
            None => Ok(None),
        }
    }

    /// Returns the integers of a list.
    #[tactic(auto, using(crate::proofs::CheckLaws::faults))]
    fn integers_in(
        &self,
        alloc: Global,
        key: Key,
        value: &Value,
    ) -> Result<Vec<i64>, SubsystemError>
        ensures { IsCheckedBeforeMemory (λ v. v.items)
            (check (is_some (as_array (view value.now))) (SubsystemError.Kind self.now.name key))
            (check (is_some (row.as_integers (view value.now))) (SubsystemError.Kind self.now.name key))
            (unwrap_or (row.as_integers (view value.now)) []) result }
    {
        let values: &[Value] = value.as_array().ok_or(self.wrong_kind(key))?;
        let mut integers = Vec::new(alloc);
        for item in values {
            integers.push(item.as_integer().ok_or(self.wrong_kind(key))?)?;
        }
        Ok(integers)
    }

    /// Returns an optional list of integers, of any size.
    #[tactic(auto, using(crate::proofs::CheckLaws::faults), unfolding(crate::proofs::Opens::keys))]
    pub(crate) fn integers_or_none(
        &self,
        alloc: Global,
        key: Key,
    ) -> Result<Vec<i64>, SubsystemError>
        ensures { IsCheckedBeforeMemory (λ v. v.items)
            (row.of_kind self.now.name key as_array (table_view self.now.table.now))
            (row.of_kind self.now.name key row.as_integers (table_view self.now.table.now))
            (row.integers_at key (table_view self.now.table.now)) result }
    {
        let Some(value) = self.find(key) else {
            return Ok(Vec::new(alloc));
        };
        let integers = self.integers_in(alloc, key, value)?;
        Ok(integers)
    }

    /// Returns an integer of a list, which is from 0 to `high`.
    #[tactic(auto, using(crate::proofs::CheckLaws::faults))]
    fn element(&self, key: Key, high: u16, integer: i64) -> Result<u16, SubsystemError>
        ensures { IsChecked (λ n. n)
            (row.in_limits self.now.name key (is_within 0 high integer)) (number integer) result }
    {
        self.in_limits(key, is_within(0, u64::from(high), integer))?;
        Ok(integer as u64 as u16)
    }

    /// Returns the integers of a list, each of which is from 0 to `high`.
    pub(crate) fn each_in_range(
        &self,
        alloc: Global,
        key: Key,
        high: u16,
        integers: &[i64],
    ) -> Result<Vec<u16>, SubsystemError>
        ensures { IsCheckedUnlessMemory (λ v. v.items)
            (row.in_limits self.now.name key (list_all (is_within 0 high) integers.now))
            (map number integers.now) result }
    {
        let mut numbers = Vec::new(alloc);
        for integer in integers {
            let number = self.element(key, high, *integer)?;
            numbers.push(number)?;
        }
        Ok(numbers)
    }

    /// Returns an optional list of at most `most` integers from 0 to `high`.
    #[tactic(auto, using(crate::proofs::CheckLaws::faults), unfolding(crate::specs::KeyChecks::optional_list))]
    pub(crate) fn integers_in_range_or_none(
        &self,
        alloc: Global,
        key: Key,
        most: usize,
        high: u16,
    ) -> Result<Vec<u16>, SubsystemError>
        ensures { IsCheckedBeforeMemory (λ v. v.items)
            (row.of_kind self.now.name key as_array (table_view self.now.table.now))
            (row.optional_list self.now.name key most high (table_view self.now.table.now))
            (map number (row.integers_at key (table_view self.now.table.now))) result }
    {
        let integers = self.integers_or_none(alloc, key)?;
        self.in_limits(key, integers.len() <= most)?;
        let numbers = self.each_in_range(alloc, key, high, &integers)?;
        Ok(numbers)
    }

    /// Checks that the table has no keys other than the known ones.
    pub(crate) fn only(&self, known: &[Key]) -> Result<(), SubsystemError>
        ensures { IsPassed
            (row.no_other self.now.name known.now (table_view self.now.table.now)) result }
    {
        let unknown = SubsystemError::Unknown { table: self.name };
        ensure(has_only(known, self.table), unknown)
    }

    /// Checks that the table has no keys other than the ones that its name allows.
    pub(crate) fn only_known(&self) -> Result<(), SubsystemError>
        ensures { IsPassed
            (row.no_other self.now.name (keys_of self.now.name) (table_view self.now.table.now))
            result }
    {
        self.only(self.name.keys())?;
        Ok(())
    }
}

/// Returns whether an integer is a number from `low` to `high`.
fn is_within(low: u64, high: u64, integer: i64) -> bool
    ensures { result ≡ is_within low high integer }
{
    integer >= 0 && low <= integer as u64 && integer as u64 <= high
}

/// Returns whether a number of tables is at least 1 and at most `most`.
fn is_count(most: usize, count: usize) -> bool
    ensures { result ≡ (nat_le 1 count && nat_le count most) }
{
    1 <= count && count <= most
}

/// Returns whether each byte is printable ASCII.
fn is_printable(bytes: &[u8]) -> bool
    ensures { result ≡ list_all (λ b. nat_le 32 b && nat_le b 126) bytes.now }
{
    bytes.iter().all(|byte| 0x20 <= *byte && *byte <= 0x7e)
}

/// Returns whether a text is printable ASCII without a space at its end, and has 1 to `most` bytes.
fn is_text(most: usize, text: &str) -> bool
    ensures { result ≡ is_text most text.now }
{
    let bytes = text.as_bytes();
    if bytes.is_empty() || bytes.len() > most || !is_printable(bytes) {
        return false;
    }
    bytes[bytes.len() - 1] != b' '
}

/// Returns whether a key is one of the known ones.
fn is_known(known: &[Key], key: &str) -> bool
    ensures { result ≡ list_any (λ x. bytes_eq (key_text x) key.now) known.now }
{
    known.iter().any(|name| name.text() == key)
}

/// Returns whether each key of a table is a known one.
fn has_only(known: &[Key], table: &Table) -> bool
    ensures { result ≡
        list_all (λ k. list_any (λ x. bytes_eq (key_text x) (string_bytes k)) known.now)
        (keys table.now) }
{
    table.keys().all(|key| is_known(known, key.as_str()))
}
