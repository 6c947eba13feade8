//! The value of a feature.

ghost use Rattle.std.specs.Prelude.{◌≡◌};
ghost use Rattle.nv_model.specs.Values.{at_default, restored, written};

use crate::feature_rule::FeatureRule;

/// The current value of a feature, and the saved one if one was saved. Section "Feature Values".
#[derive(Clone, Copy, Debug, PartialEq, Eq)]
pub struct FeatureValue {
    pub current: u32,
    pub saved: Option<u32>,
}

impl FeatureValue {
    /// Returns the value under a selector before any is set.
    pub fn at_default(rule: FeatureRule, selector: u8) -> FeatureValue
        ensures { result ≡ at_default rule selector }
    {
        FeatureValue {
            current: rule.defaults.at(selector),
            saved: None,
        }
    }

    /// Returns it with another current value, which is also saved if `save` is set.
    pub fn written(self, value: u32, save: bool) -> FeatureValue
        ensures { result ≡ written value save self }
    {
        FeatureValue {
            current: value,
            saved: if save { Some(value) } else { self.saved },
        }
    }

    /// Returns it with the saved value as the current one, or with the default if none was saved.
    pub fn restored(self, default: u32) -> FeatureValue
        ensures { result ≡ restored default self }
    {
        FeatureValue {
            current: self.saved.unwrap_or(default),
            saved: self.saved,
        }
    }
}
