//! The features that a controller has, and their defaults.

ghost use Rattle.std.specs.Prelude.{◌≡◌};
ghost use Rattle.nv_model.specs.Values.{default_of, default_rule};
ghost use Rattle.nv_model.specs.WellFormed.{is_supported};

use nv_bits::VecMap;
use nv_layout::Feature;
use nv_model::{Defaults, FeatureRule};

/// Returns the default under a selector.
pub(crate) fn default_of(rule: FeatureRule, selector: u8) -> u32
    ensures { result ≡ default_of rule selector }
{
    rule.defaults.at(selector)
}

/// Returns how a controller treats a feature that has no table in the file.
pub(crate) fn default_rule(fid: u8) -> FeatureRule
    ensures { result ≡ default_rule fid }
{
    FeatureRule {
        fid,
        defaults: Defaults::One(0),
        saveable: false,
        changeable: true,
    }
}

/// Returns whether a controller with these rules and this Volatile Write Cache field has a feature.
pub(crate) fn is_supported(rules: &VecMap<FeatureRule>, vwc: u8, feature: Feature) -> bool
    ensures { result ≡ is_supported rules.now.values vwc feature }
{
    match feature {
        Feature::TemperatureThreshold => rules.contains(u32::from(feature.fid())),
        Feature::VolatileWriteCache => vwc & 1 == 1,
        _ => true,
    }
}
