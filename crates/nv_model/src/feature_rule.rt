//! How a controller treats a feature.

use crate::defaults::Defaults;

/// How a controller treats a feature. Sections "Set Features command" and "Feature Specific
/// Information".
#[derive(Clone, Copy, Debug, PartialEq, Eq)]
pub struct FeatureRule {
    /// The feature identifier.
    pub fid: u8,
    /// The values before any is set.
    pub defaults: Defaults,
    /// Whether a value can be saved. A value of Error Recovery never can.
    pub saveable: bool,
    /// Whether Set Features can change the value.
    pub changeable: bool,
}
