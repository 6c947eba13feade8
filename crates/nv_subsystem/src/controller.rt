//! A controller of a subsystem.

ghost use Rattle.std.specs.Prelude.{◌≡◌, ◌+◌, ◌<◌, ◌^◌, ℕ};
ghost use Rattle.nv_subsystem.specs.inner.ControllerView.{Becomes};
ghost use Rattle.nv_bits.specs.Numbers.{IsOf};
ghost use Rattle.nv_model.specs.Attachment.{with_one};
ghost use Rattle.nv_model.specs.Management.{with_nsids, without, without_any};
ghost use Rattle.nv_subsystem.specs.Sound.{IsSized};
ghost use Rattle.nv_model.specs.Values.{rule_for, rule_of};
ghost use Rattle.nv_subsystem.specs.Tagged.{with_booked};

use crate::error_log::ErrorLog;
use crate::feature_value::default_rule;
use crate::feature_values::FeatureValues;
use nv_bits::{BitSet, VecMap};
use nv_command::Refusal;
use nv_layout::Feature;
use nv_model::{FeatureRule, FeatureValue, Identity, Origin, SmartBase};

/// A controller: what its table in the file says, and what its commands change.
#[derive(Drop)]
pub struct Controller {
    pub identity: Identity,
    /// How it treats features, by feature identifier.
    pub rules: VecMap<FeatureRule>,
    pub smart: SmartBase,
    pub log: ErrorLog,
    pub refusals: u64,
    pub commands: u64,
    /// The NSIDs of the attached namespaces, from 1 to NN.
    pub attached: BitSet,
    pub values: FeatureValues,
}

/// Returns how a controller treats the feature with an identifier: its rule, or the default rule if
/// it has none.
pub(crate) fn rule_for(rules: &VecMap<FeatureRule>, fid: u8) -> FeatureRule
    ensures { result ≡ rule_for rules.now.values fid }
{
    match rules.get(u32::from(fid)) {
        Some(rule) => rule,
        None => default_rule(fid),
    }
}

/// Returns how a controller treats a feature.
pub(crate) fn rule_of(rules: &VecMap<FeatureRule>, feature: Feature) -> FeatureRule
    ensures { result ≡ rule_of rules.now.values feature }
{
    rule_for(rules, feature.fid())
}

impl Controller {
    /// Attaches a namespace, with its Error Recovery at the default.
    pub(crate) fn attach(&mut self, nsid: u32)
        requires { (nn : ℕ) × IsSized nn self.old × IsOf 1 nn nsid }
        ensures { Becomes (with_nsids (with_one nsid)) self.old self.new }
    {
        let rule = rule_of(&self.rules, Feature::ErrorRecovery);
        self.attached.insert(nsid);
        self.values.insert(
            Feature::ErrorRecovery,
            nsid,
            0,
            FeatureValue::at_default(rule, 0),
        );
    }

    /// Detaches a namespace and removes its Error Recovery.
    pub(crate) fn detach(&mut self, nsid: u32)
        ensures { Becomes (with_nsids (without nsid)) self.old self.new }
    {
        self.attached.remove(nsid);
        self.values.remove(nsid);
    }

    /// Detaches all namespaces.
    pub(crate) fn detach_all(&mut self)
        ensures { Becomes (with_nsids without_any) self.old self.new }
    {
        self.attached.clear();
        self.values.clear();
    }

    /// Records a refusal as the newest entry of the error log, with its phase tag.
    pub(crate) fn book(&mut self, origin: Origin, nsid: u32, refusal: Refusal)
        requires { self.old.log.most ≡ self.old.identity.numbers.elpe + 1 }
        ensures refusal { Becomes (with_booked nsid origin refusal) self.old self.new }
        ensures range { origin.cid < 2 ^ 16 }
    {
        self.refusals = self.refusals.saturating_add(1);
        self.log.book(self.refusals, origin, nsid, refusal);
    }
}
