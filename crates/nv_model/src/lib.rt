//! An NVM subsystem as a value: what a controller reports about itself, namespaces, features and
//! logs, and what each command returns and changes. The crates above this one promise what its
//! definitions say.
#![tactic(auto)]

ghost use Rattle.std.specs.Prelude.{◌≡◌, ◌-◌, ◌^◌};
ghost use Rattle.nv_model.specs.declared.integer.TheConstants.{GREATEST_INTEGER};
ghost use Rattle.nv_model.specs.declared.origin.TheConstants.{CID_COUNT};

mod command_counts;
mod defaults;
mod feature_rule;
mod feature_value;
mod format;
mod identity;
mod integer;
mod namespace;
mod origin;
mod smart_base;

pub use command_counts::CommandCounts;
pub use defaults::Defaults;
pub use feature_rule::FeatureRule;
pub use feature_value::FeatureValue;
pub use format::Format;
pub use identity::{Identity, IdentityNumbers};
pub use integer::GREATEST_INTEGER;
pub use namespace::Namespace;
pub use origin::{CID_COUNT, Origin};
pub use smart_base::{Counters, SmartBase};

/// States a law: FFFFh is no command identifier, and the integers of TOML have 64 bits with a sign.
/// The call does nothing.
pub fn constants()
    ensures identifiers { CID_COUNT ≡ 0xffff }
    ensures greatest_integer { GREATEST_INTEGER ≡ 2 ^ 63 - 1 }
{}
