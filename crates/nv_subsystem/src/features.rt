//! Get Features and Set Features: when they are refused, what they return, and what they change.
//! Sections "Get Features command" and "Set Features command".

ghost use Rattle.std.specs.Prelude.{◌≡◌, ◌<◌, true, length, map, All};
ghost use Rattle.std.specs.List.{fold};
ghost use Rattle.nv_layout.specs.Feature.{is_selector};
ghost use Rattle.nv_model.specs.Change.{changed};
ghost use Rattle.nv_subsystem.specs.inner.ControllerView.{Becomes, controller_view};
ghost use Rattle.nv_model.specs.Features.{capabilities, feature_number, get_feature_rows, get_rows};
ghost use Rattle.nv_model.specs.Features.{rule_at, selected};
ghost use Rattle.nv_model.specs.Features.{asked_value, set_feature_rows, set_rows, supported_at};
ghost use Rattle.nv_model.specs.Features.{with_feature, with_value};
ghost use Rattle.nv_model.specs.Features.{with_values, write};
ghost use Rattle.nv_model.specs.inner.Conditions.{Checks};
ghost use Rattle.nv_model.specs.State.{with_controller};
ghost use Rattle.nv_model.specs.Values.{key_of};

use crate::controller::{Controller, rule_of};
use crate::feature_value::{default_of, is_supported};
use crate::feature_values::FeatureValues;
use crate::subsystem::Subsystem;
use nv_command::{BROADCAST_NSID, FeatureQuery, FeatureSetting, Refusal, StatusCode};
use nv_layout::{Feature, NsList, ThreeBits};
use nv_model::{FeatureRule, FeatureValue};

/// Returns what can be done with a feature: save it (bit 0), give each namespace a value of its own
/// (bit 1), and change it (bit 2).
fn capabilities(rule: FeatureRule, feature: Feature) -> u32
    ensures { result ≡ capabilities rule feature }
{
    let saveable = if rule.saveable { 1 } else { 0 };
    let per_namespace = if feature.is_per_namespace() { 2 } else { 0 };
    let changeable = if rule.changeable { 4 } else { 0 };
    saveable + per_namespace + changeable
}

/// Returns what a select names: the current value, the default, the saved one, or the capabilities.
fn selected(
    rule: FeatureRule,
    feature: Feature,
    sel: ThreeBits,
    selector: u8,
    value: FeatureValue,
) -> u32
    ensures { result ≡ selected rule feature sel selector value }
{
    let default = default_of(rule, selector);
    match sel.get() {
        0 => value.current,
        1 => default,
        2 => value.saved.unwrap_or(default),
        _ => capabilities(rule, feature),
    }
}

/// Overwrites those of a feature's values under some selectors that exist.
fn write_selectors(
    values: &mut FeatureValues,
    feature: Feature,
    asked: FeatureSetting,
    nsid: u32,
    selectors: &[u8],
)
    requires { All (λ s. is_selector feature s ≡ true) selectors.now }
    ensures { values.new ≡ record values.old {
      values = changed (write feature asked.value asked.save)
          (map (key_of feature nsid) selectors.now) values.old.values;
    } }
{
    for selector in selectors {
        values.write(feature, nsid, *selector, asked);
    }
}

/// Overwrites those of a feature's values for some namespaces that exist.
fn write_each(values: &mut FeatureValues, feature: Feature, asked: FeatureSetting, nsids: &[u32])
    ensures { values.new ≡ record values.old {
      values = fold (with_value feature asked.value asked.save) values.old.values nsids.now;
    } }
{
    for nsid in nsids {
        write_selectors(values, feature, asked, *nsid, feature.selectors());
    }
}

impl Controller {
    /// Returns the result of a Get Features.
    fn asked_value(&self, asked: FeatureQuery, feature: Feature) -> u32
        ensures { result ≡ asked_value asked feature (controller_view self.now) }
    {
        let selector = feature.selector_in(asked.cdw11);
        if !feature.has_selector(selector) {
            return 0;
        }
        let rule = rule_of(&self.rules, feature);
        match self.values.get(feature, asked.nsid, selector) {
            Some(value) => selected(rule, feature, asked.sel, selector, value),
            None => 0,
        }
    }

    /// Overwrites those of a feature's values for some namespaces that exist.
    fn write(&mut self, feature: Feature, asked: FeatureSetting, nsids: &[u32])
        ensures { Becomes (with_values feature asked.value asked.save nsids.now) self.old self.new }
    {
        write_each(&mut self.values, feature, asked, nsids);
    }
}

impl Subsystem {
    /// Returns how a controller treats a feature.
    fn rule(&self, ctrl: u16, feature: Feature) -> FeatureRule
        requires { ctrl < length self.now.controllers }
        ensures { result ≡ rule_at self.now ctrl feature }
    {
        rule_of(&self.controllers[ctrl as usize].rules, feature)
    }

    /// Returns the feature with an identifier if a controller supports it.
    fn supported(&self, ctrl: u16, fid: u8) -> Option<Feature>
        requires { ctrl < length self.now.controllers }
        ensures { result ≡ supported_at self.now ctrl fid }
    {
        let controller = &self.controllers[ctrl as usize];
        let vwc = controller.identity.numbers.vwc;
        match Feature::of(fid) {
            Some(feature) if is_supported(&controller.rules, vwc, feature) => Some(feature),
            _ => None,
        }
    }

    /// Refuses a Get Features of a supported feature by the first condition that holds. The
    /// conditions are in the order of the rows.
    fn check_get(&self, ctrl: u16, asked: FeatureQuery, feature: Feature) -> Result<(), Refusal>
        requires { ctrl < length self.now.controllers }
        ensures { Checks (get_rows self.now ctrl asked feature) result }
    {
        let of_namespaces = feature.is_per_namespace();
        if asked.sel.get() > 3 {
            Err(Refusal::from(StatusCode::InvalidFieldInCommand))
        } else if !feature.has_selector(feature.selector_in(asked.cdw11)) {
            Err(Refusal::from(StatusCode::InvalidFieldInCommand))
        } else if of_namespaces && !self.is_valid(asked.nsid) {
            Err(Refusal::from(StatusCode::InvalidNamespaceOrFormat))
        } else if of_namespaces && !self.is_active(ctrl, asked.nsid) {
            Err(Refusal::from(StatusCode::InvalidFieldInCommand))
        } else {
            Ok(())
        }
    }

    /// Refuses a Get Features by the first condition that holds.
    pub(crate) fn check_get_feature(&self, ctrl: u16, asked: FeatureQuery) -> Result<(), Refusal>
        requires { ctrl < length self.now.controllers }
        ensures { Checks (get_feature_rows self.now ctrl asked) result }
    {
        match self.supported(ctrl, asked.fid) {
            Some(feature) => self.check_get(ctrl, asked, feature),
            None => Err(Refusal::from(StatusCode::InvalidFieldInCommand)),
        }
    }

    /// Refuses a Set Features of a supported feature by the first condition that holds. The
    /// conditions are in the order of the rows.
    fn check_set(&self, ctrl: u16, asked: FeatureSetting, feature: Feature) -> Result<(), Refusal>
        requires { ctrl < length self.now.controllers }
        ensures { Checks (set_rows self.now ctrl asked feature) result }
    {
        let nsid = asked.nsid;
        let rule = self.rule(ctrl, feature);
        let of_namespaces = feature.is_per_namespace();
        let all = nsid == BROADCAST_NSID;
        if !feature.accepts(asked.value) {
            Err(Refusal::from(StatusCode::InvalidFieldInCommand))
        } else if of_namespaces && !(self.is_valid(nsid) || all) {
            Err(Refusal::from(StatusCode::InvalidNamespaceOrFormat))
        } else if of_namespaces && !(self.is_active(ctrl, nsid) || all) {
            Err(Refusal::from(StatusCode::InvalidFieldInCommand))
        } else if !of_namespaces && !(nsid == 0 || all) {
            Err(Refusal::from(StatusCode::FeatureNotNamespaceSpecific))
        } else if asked.save && !rule.saveable {
            Err(Refusal::from(StatusCode::FeatureIdentifierNotSaveable))
        } else if !rule.changeable {
            Err(Refusal::from(StatusCode::FeatureNotChangeable))
        } else {
            Ok(())
        }
    }

    /// Refuses a Set Features by the first condition that holds.
    pub(crate) fn check_set_feature(&self, ctrl: u16, asked: FeatureSetting) -> Result<(), Refusal>
        requires { ctrl < length self.now.controllers }
        ensures { Checks (set_feature_rows self.now ctrl asked) result }
    {
        match self.supported(ctrl, asked.fid) {
            Some(feature) => self.check_set(ctrl, asked, feature),
            None => Err(Refusal::from(StatusCode::InvalidFieldInCommand)),
        }
    }

    /// Returns the number that a Get Features returns.
    pub(crate) fn feature_number(&self, ctrl: u16, asked: FeatureQuery) -> u32
        requires { ctrl < length self.now.controllers }
        ensures { result ≡ feature_number self.now ctrl asked }
    {
        match Feature::of(asked.fid) {
            Some(feature) => self.controllers[ctrl as usize].asked_value(asked, feature),
            None => 0,
        }
    }

    /// Overwrites those of a feature's values for some namespaces that exist.
    fn write_values(&mut self, ctrl: u16, feature: Feature, asked: FeatureSetting, nsids: &[u32])
        requires { ctrl < length self.old.controllers }
        ensures { self.new ≡ with_controller self.old ctrl
            (with_values feature asked.value asked.save nsids.now) }
    {
        let controller = &mut self.controllers[ctrl as usize];
        controller.write(feature, asked, nsids);
    }

    /// Sets a feature. If each namespace has a value of its own, it sets that of the namespace, or
    /// of all active ones. `list` is used on the way.
    pub(crate) fn set_feature(&mut self, ctrl: u16, asked: FeatureSetting, list: &mut NsList)
        requires { ctrl < length self.old.controllers }
        ensures { self.new ≡ with_feature self.old ctrl asked }
    {
        let Some(feature) = Feature::of(asked.fid) else {
            return;
        };
        if feature.is_per_namespace() {
            self.concerned(ctrl, asked.nsid, list);
            self.write_values(ctrl, feature, asked, list.as_slice());
        } else {
            self.write_values(ctrl, feature, asked, &[0]);
        }
    }
}
