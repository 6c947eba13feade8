//! Creates a subsystem from a file.

ghost use Rattle.std.specs.Prelude.{◌≡◌, ◌≤◌, ◌+◌, true, false, IfOk, IfErr, map, sum_by, All};
ghost use Rattle.std.specs.List.{fold};
ghost use Rattle.std.specs.FinMap as map_of;
ghost use Rattle.nv_bits.specs.Numbers.{IsOf};
ghost use Rattle.nv_model.specs.Ranges.{IsFeatureRule};
ghost use Rattle.nv_layout.specs.Feature.{is_selector, row_of};
ghost use Rattle.nv_model.specs.Change.{changed};
ghost use Rattle.nv_model.specs.Values.{key_of};
ghost use Rattle.nv_subsystem.specs.inner.ControllerView.{controller_view};
ghost use Rattle.nv_file.specs.FileValue.{controller_entry_view, namespace_entry_view};
ghost use Rattle.nv_subsystem.specs.FromFile.{controller_of, defaults_of, fill, rules_of};
ghost use Rattle.nv_subsystem.specs.FromFile.{with_attachment};
ghost use Rattle.nv_subsystem.specs.FromFile.{with_default, with_namespace, with_recovery};
ghost use Rattle.nv_subsystem.specs.FromFile.{with_rule};
ghost use Rattle.nv_subsystem.specs.Sound.{IsSized};
ghost use Rattle.nv_layout.specs.Limits.{most_nsids};

use crate::controller::{Controller, rule_of};
use crate::error_log::ErrorLog;
use crate::feature_value::is_supported;
use crate::feature_values::{FEATURE_LIMIT, FeatureValues};
use nv_bits::{BitSet, VecMap};
use nv_file::{ControllerEntry, NamespaceEntry, SubsystemError};
use nv_layout::Feature;
use nv_model::{FeatureRule, FeatureValue, Identity, Namespace};
use std::alloc::Global;

/// Returns the bytes of capacity that the namespaces of a file leave unallocated.
pub(crate) fn unallocated(tnvmcap: u64, entries: &[NamespaceEntry]) -> u64
    requires { sum_by (λ n. n.namespace.capacity) entries.now ≤ tnvmcap }
    ensures { result + sum_by (λ n. n.namespace.capacity) entries.now ≡ tnvmcap }
{
    let used: u64 = entries.iter().map(|entry| entry.namespace.capacity).sum();
    tnvmcap - used
}

/// Inserts each namespace into its slot.
fn fill(slots: &mut VecMap<Namespace>, entries: &[NamespaceEntry])
    requires { All (λ n. IsOf slots.old.first slots.old.count n.nsid) entries.now }
    ensures { slots.new ≡ record slots.old {
      values = fold with_namespace slots.old.values (map namespace_entry_view entries.now);
    } }
{
    for entry in entries {
        slots.insert(entry.nsid, entry.namespace);
    }
}

/// Returns the namespaces of a file in their slots.
pub(crate) fn slots(
    alloc: Global,
    nn: u32,
    entries: &[NamespaceEntry],
) -> Result<VecMap<Namespace>, SubsystemError>
    requires count { nn ≤ most_nsids }
    requires nsids { All (λ n. IsOf 1 nn n.nsid) entries.now }
    ensures value { IfOk result (λ slots. slots ≡ record {
      first = 1;
      count = nn;
      values = fold with_namespace map_of.empty (map namespace_entry_view entries.now);
    }) }
    ensures memory { IfErr result (λ e. e ≡ SubsystemError.Memory) }
{
    let mut slots = VecMap::new(alloc, 1, nn)?;
    fill(&mut slots, entries);
    Ok(slots)
}

/// Attaches each namespace that the file attaches to the controller with this identifier.
fn attach_all(attached: &mut BitSet, cntlid: u16, entries: &[NamespaceEntry])
    requires { All (λ n. IsOf attached.old.first attached.old.count n.nsid) entries.now }
    ensures { attached.new ≡ record attached.old {
      members = fold (with_attachment cntlid) attached.old.members
          (map namespace_entry_view entries.now);
    } }
{
    for entry in entries {
        if entry.is_attached_to(cntlid) {
            attached.insert(entry.nsid);
        }
    }
}

/// Inserts the rule of each feature that has a table into its slot.
fn fill_rules(slots: &mut VecMap<FeatureRule>, rules: &[FeatureRule])
    requires { All (λ r. IsOf slots.old.first slots.old.count r.fid) rules.now }
    ensures { slots.new ≡ record slots.old { values = fold with_rule slots.old.values rules.now } }
{
    for rule in rules {
        slots.insert(u32::from(rule.fid), *rule);
    }
}

/// Returns the rules of the features that have a table, in their slots.
fn rule_slots(alloc: Global, rules: &[FeatureRule]) -> Result<VecMap<FeatureRule>, SubsystemError>
    requires { All IsFeatureRule rules.now }
    ensures value { IfOk result (λ slots. slots.values ≡ rules_of rules.now) }
    ensures memory { IfErr result (λ e. e ≡ SubsystemError.Memory) }
{
    let mut slots = VecMap::new(alloc, 0, FEATURE_LIMIT)?;
    fill_rules(&mut slots, rules);
    Ok(slots)
}

/// Sets the defaults of a feature under some selectors. The feature has no value for each
/// namespace.
fn fill_selectors(
    values: &mut FeatureValues,
    rules: &VecMap<FeatureRule>,
    feature: Feature,
    selectors: &[u8],
)
    requires known { All (λ s. is_selector feature s ≡ true) selectors.now }
    requires alone { (row_of feature).per_namespace ≡ false }
    ensures { values.new ≡ record values.old {
      values = changed (fill rules.now.values) (map (key_of feature 0) selectors.now)
          values.old.values;
    } }
{
    let rule = rule_of(rules, feature);
    for selector in selectors {
        values.insert(
            feature,
            0,
            *selector,
            FeatureValue::at_default(rule, *selector),
        );
    }
}

/// Sets the defaults of a feature if it is supported and has no value for each namespace.
fn fill_default(values: &mut FeatureValues, rules: &VecMap<FeatureRule>, vwc: u8, feature: Feature)
    ensures { values.new ≡ record values.old {
      values = with_default rules.now.values vwc values.old.values feature;
    } }
{
    if is_supported(rules, vwc, feature) && !feature.is_per_namespace() {
        fill_selectors(values, rules, feature, feature.selectors());
    }
}

/// Sets the default of each of some features.
fn fill_defaults(
    values: &mut FeatureValues,
    rules: &VecMap<FeatureRule>,
    vwc: u8,
    features: &[Feature],
)
    ensures { values.new ≡ record values.old {
      values = fold (with_default rules.now.values vwc) values.old.values features.now;
    } }
{
    for feature in features {
        fill_default(values, rules, vwc, *feature);
    }
}

/// Sets the value of Error Recovery of each namespace that the file attaches to the controller with
/// this identifier.
fn fill_recoveries(
    values: &mut FeatureValues,
    rules: &VecMap<FeatureRule>,
    cntlid: u16,
    entries: &[NamespaceEntry],
)
    requires { All (λ n. IsOf 1 values.old.nn n.nsid) entries.now }
    ensures { values.new ≡ record values.old {
      values = fold (with_recovery cntlid rules.now.values) values.old.values
          (map namespace_entry_view entries.now);
    } }
{
    let value = FeatureValue::at_default(rule_of(rules, Feature::ErrorRecovery), 0);
    for entry in entries {
        if entry.is_attached_to(cntlid) {
            values.insert(Feature::ErrorRecovery, entry.nsid, 0, value);
        }
    }
}

/// Returns the values of the features of a controller of a file, all at their defaults.
fn feature_values(
    alloc: Global,
    nn: u32,
    rules: &VecMap<FeatureRule>,
    identity: &Identity,
    namespaces: &[NamespaceEntry],
) -> Result<FeatureValues, SubsystemError>
    requires count { nn ≤ most_nsids }
    requires nsids { All (λ n. IsOf 1 nn n.nsid) namespaces.now }
    ensures value { IfOk result (λ values. values ≡ record {
      nn = nn;
      values = fold (with_recovery identity.now.cntlid rules.now.values)
          (defaults_of rules.now.values identity.now.numbers.vwc)
          (map namespace_entry_view namespaces.now);
    }) }
    ensures memory { IfErr result (λ e. e ≡ SubsystemError.Memory) }
{
    let mut values = FeatureValues::new(alloc, nn)?;
    fill_defaults(&mut values, rules, identity.numbers.vwc, &Feature::ALL);
    fill_recoveries(&mut values, rules, identity.cntlid, namespaces);
    Ok(values)
}

/// Returns a controller of a file, before its first command.
fn controller(
    alloc: Global,
    nn: u32,
    entry: ControllerEntry,
    namespaces: &[NamespaceEntry],
) -> Result<Controller, SubsystemError>
    requires count { nn ≤ most_nsids }
    requires nsids { All (λ n. IsOf 1 nn n.nsid) namespaces.now }
    requires rules { All IsFeatureRule entry.rules.items }
    requires mdts { entry.identity.numbers.mdts ≤ 8 }
    ensures value { IfOk result (λ c. controller_view c
        ≡ controller_of (map namespace_entry_view namespaces.now) (controller_entry_view entry)) }
    ensures sized { IfOk result (IsSized nn) }
    ensures memory { IfErr result (λ e. e ≡ SubsystemError.Memory) }
{
    let log = ErrorLog::new(alloc, u16::from(entry.identity.numbers.elpe) + 1)?;
    let mut attached = BitSet::new(alloc, 1, nn)?;
    attach_all(&mut attached, entry.identity.cntlid, namespaces);
    let rules = rule_slots(alloc, &entry.rules)?;
    let values = feature_values(alloc, nn, &rules, &entry.identity, namespaces)?;
    Ok(Controller {
        identity: entry.identity,
        rules,
        smart: entry.smart,
        log,
        refusals: 0,
        commands: 0,
        attached,
        values,
    })
}

/// Returns the controllers of a file, before their first commands.
pub(crate) fn controllers(
    alloc: Global,
    nn: u32,
    entries: Vec<ControllerEntry>,
    namespaces: &[NamespaceEntry],
) -> Result<Vec<Controller>, SubsystemError>
    requires count { nn ≤ most_nsids }
    requires nsids { All (λ n. IsOf 1 nn n.nsid) namespaces.now }
    requires rules { All (λ e. All IsFeatureRule e.rules.items) entries.items }
    requires mdts { All (λ e. e.identity.numbers.mdts ≤ 8) entries.items }
    ensures value { IfOk result (λ cs. map controller_view cs.items
        ≡ map (controller_of (map namespace_entry_view namespaces.now))
        (map controller_entry_view entries.items)) }
    ensures sized { IfOk result (λ cs. All (IsSized nn) cs.items) }
    ensures memory { IfErr result (λ e. e ≡ SubsystemError.Memory) }
{
    let mut made = Vec::new(alloc);
    for entry in entries {
        made.push(controller(alloc, nn, entry, namespaces)?)?;
    }
    Ok(made)
}
