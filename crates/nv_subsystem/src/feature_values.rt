//! The values of the features of a controller.

ghost use Rattle.std.specs.Prelude.{◌≡◌, ◌+◌, ◌*◌, ◌≤◌, ◌<◌, true, IfOk, IfSome};
ghost use Rattle.std.specs.FinMap as map_of;
ghost use Rattle.nv_bits.specs.Numbers.{IsOf};
ghost use Rattle.nv_layout.specs.Feature.{is_selector, row_of};
ghost use Rattle.nv_layout.specs.Limits.{most_nsids};
ghost use Rattle.nv_model.specs.Change.{changed_at};
ghost use Rattle.nv_model.specs.Values.{first_value, is_alone, key_of, recovery_key};
ghost use Rattle.nv_model.specs.Features.{write};
ghost use Rattle.nv_model.specs.Step.{all_restored};
ghost use Rattle.nv_subsystem.specs.ValueTable.{key_at};
ghost use Rattle.nv_subsystem.specs.inner.ValueTable.{AreRestored, restored_at};

use crate::controller::{rule_for, rule_of};
use crate::feature_value::default_of;
use nv_bits::VecMap;
use nv_command::FeatureSetting;
use nv_layout::Feature;
use nv_model::{FeatureRule, FeatureValue};
use std::alloc::{AllocError, Global};
use std::marker::Model;

/// One more than the greatest feature identifier.
pub const FEATURE_LIMIT: u32 = 12;

/// The length of a row of selectors: those of every feature are below it.
const SELECTOR_LIMIT: u32 = 32;

/// The values of the features of a controller, in room that is made once.
#[derive(Drop)]
pub struct FeatureValues {
    /// Those of Error Recovery, which each namespace has for itself, by NSID.
    by_nsid: VecMap<FeatureValue>,
    /// All others, by feature and selector.
    by_feature: VecMap<FeatureValue>,
}

impl Model for FeatureValues {
    ghost use Rattle.std.specs.Coded.{codes};
    ghost use Rattle.std.specs.FinMap as map_of;
    ghost use Rattle.nv_subsystem.specs.ValueTable.{AreTables, ValueTable, values_of};

    ghost Value = { ValueTable };

    ghost coded = { Prim.hlevel (codes, map_of.code) };

    ghost view = { λ t. record {
      nn = t.by_nsid.count;
      values = values_of t.by_nsid.values t.by_feature.values;
    } };

    ghost invariant = { λ t. AreTables t.by_nsid t.by_feature };
}

/// The place of a feature's value under a selector.
fn place(feature: Feature, selector: u8) -> u32
    requires { is_selector feature selector ≡ true }
    ensures value { result ≡ (row_of feature).fid * 32 + selector }
    ensures within { result < 12 * 32 }
{
    u32::from(feature.fid()) * SELECTOR_LIMIT + u32::from(selector)
}

/// The default of the value at a place.
fn default_at(rules: &VecMap<FeatureRule>, place: u32) -> u32
    requires { place < 12 * 32 }
    ensures { result ≡ (first_value rules.now.values (key_at place)).current }
{
    let rule = rule_for(rules, (place / SELECTOR_LIMIT) as u8);
    default_of(rule, (place % SELECTOR_LIMIT) as u8)
}

/// Makes the saved value of a number current, or the default where nothing was saved.
fn restore_one(table: &mut VecMap<FeatureValue>, number: u32, default: u32)
    ensures { table.new ≡ record table.old {
      values = restored_at default table.old.values number;
    } }
{
    if let Some(value) = table.get(number) {
        table.insert(number, value.restored(default));
    }
}

/// Restores the value of each NSID.
fn restore_recoveries(table: &mut VecMap<FeatureValue>, default: u32)
    ensures { AreRestored (λ _. default) table.old.count table.old table.new }
{
    for k in 0..table.count() {
        let nsid = table.first() + k;
        restore_one(table, nsid, default);
    }
}

/// Restores the value at each place.
fn restore_features(table: &mut VecMap<FeatureValue>, rules: &VecMap<FeatureRule>)
    requires { (table.old.first ≡ 0) × (table.old.count ≡ 12 * 32) }
    ensures { AreRestored (λ place. (first_value rules.now.values (key_at place)).current)
        table.old.count table.old table.new }
{
    for place in 0..table.count() {
        restore_one(table, place, default_at(rules, place));
    }
}

impl FeatureValues {
    /// No values, with room for those of NSIDs from 1 to NN.
    pub(crate) fn new(alloc: Global, nn: u32) -> Result<FeatureValues, AllocError>
        requires { nn ≤ most_nsids }
        ensures { IfOk result (λ s. s ≡ record { nn = nn; values = map_of.empty }) }
    {
        let by_nsid = VecMap::new(alloc, 1, nn)?;
        let by_feature = VecMap::new(alloc, 0, FEATURE_LIMIT * SELECTOR_LIMIT)?;
        Ok(FeatureValues {
            by_nsid,
            by_feature,
        })
    }

    /// The value of a feature under a selector: that for the namespace where each has one of its
    /// own.
    pub(crate) fn get(&self, feature: Feature, nsid: u32, selector: u8) -> Option<FeatureValue>
        requires { is_selector feature selector ≡ true }
        ensures value { result ≡ map_of.get self.now.values (key_of feature nsid selector) }
        ensures in_range { IfSome result
            (λ _. (row_of feature).per_namespace ≡ true → IsOf 1 self.now.nn nsid) }
    {
        if feature.is_per_namespace() {
            self.by_nsid.get(nsid)
        } else {
            self.by_feature.get(place(feature, selector))
        }
    }

    /// Gives a feature a value under a selector: that for the namespace where each has one of its
    /// own.
    pub(crate) fn insert(&mut self, feature: Feature, nsid: u32, selector: u8, value: FeatureValue)
        requires known { is_selector feature selector ≡ true }
        requires in_range { (row_of feature).per_namespace ≡ true → IsOf 1 self.old.nn nsid }
        ensures { self.new ≡ record self.old {
          values = map_of.insert self.old.values (key_of feature nsid selector) value;
        } }
    {
        if feature.is_per_namespace() {
            self.by_nsid.insert(nsid, value);
        } else {
            self.by_feature.insert(place(feature, selector), value);
        }
    }

    /// Writes over the value of a feature under a selector, where it is there and the Set is for
    /// it.
    pub(crate) fn write(&mut self, feature: Feature, nsid: u32, selector: u8, asked: FeatureSetting)
        requires { is_selector feature selector ≡ true }
        ensures { self.new ≡ record self.old {
          values = changed_at (write feature asked.value asked.save) self.old.values
              (key_of feature nsid selector);
        } }
    {
        if !feature.sets(asked.value, selector) {
            return;
        }
        if let Some(old) = self.get(feature, nsid, selector) {
            let value = old.written(feature.stored(asked.value), asked.save);
            self.insert(feature, nsid, selector, value);
        }
    }

    /// Takes away what a namespace has.
    pub(crate) fn remove(&mut self, nsid: u32)
        ensures { self.new ≡ record self.old {
          values = map_of.remove self.old.values (recovery_key nsid);
        } }
    {
        self.by_nsid.remove(nsid);
    }

    /// Takes away what any namespace has.
    pub(crate) fn clear(&mut self)
        ensures { self.new ≡ record self.old {
          values = map_of.retain_keys self.old.values is_alone;
        } }
    {
        self.by_nsid.clear();
    }

    /// Makes each saved value current, or the default where nothing was saved.
    pub(crate) fn restore(&mut self, rules: &VecMap<FeatureRule>)
        ensures { self.new ≡ record self.old {
          values = all_restored rules.now.values self.old.values;
        } }
    {
        let recovery = default_of(rule_of(rules, Feature::ErrorRecovery), 0);
        restore_recoveries(&mut self.by_nsid, recovery);
        restore_features(&mut self.by_feature, rules);
    }
}
