//! The features that a controller may have.

ghost use Rattle.std.specs.Prelude.{◌≡◌, ◌==◌, true, Option, Some, [], ◌∷◌, length, nat_lt};
ghost use Rattle.std.specs.List.{list_any};
ghost use Rattle.nv_layout.specs.declared.feature.TheConstants.Feature.{ALL};
ghost use Rattle.nv_layout.specs.Feature.{feature_of, features, is_accepted, is_ascending, is_for};
ghost use Rattle.nv_layout.specs.Feature.{is_selector, is_value};
ghost use Rattle.nv_layout.specs.Feature.{row_of, selector_in, selectors_set, stored};

use crate::parts::bits_of;

/// A feature. Section "Feature Specific Information".
#[derive(Clone, Copy, Debug, PartialEq, Eq)]
pub enum Feature {
    Arbitration,
    PowerManagement,
    TemperatureThreshold,
    ErrorRecovery,
    VolatileWriteCache,
    InterruptCoalescing,
    WriteAtomicityNormal,
    AsynchronousEventConfiguration,
}

/// What the table says about a feature.
#[derive(Clone, Copy)]
struct FeatureRow {
    /// The feature identifier.
    fid: u8,
    name: &'static str,
    /// The bits that the dword of a Set Features command may have.
    mask: u32,
    /// The bits of the mask that must be 0 anyway.
    clear: u32,
    /// The bits of the mask that are stored.
    kept: u32,
    /// Whether each namespace has a value of its own.
    per_namespace: bool,
    /// The selectors under which it has values.
    selectors: &'static [u8],
}

/// Returns the row of a feature with one value, which keeps each bit of its mask.
fn one_value(fid: u8, name: &'static str, mask: u32, clear: u32, per_namespace: bool) -> FeatureRow
    ensures fid { result.fid ≡ fid }
    ensures name { result.name ≡ name.entry }
    ensures mask { result.mask ≡ mask }
    ensures clear { result.clear ≡ clear }
    ensures kept { result.kept ≡ mask }
    ensures per_namespace { result.per_namespace ≡ per_namespace }
    ensures selectors { result.selectors.now ≡ 0 ∷ [] }
{
    FeatureRow {
        fid,
        name,
        mask,
        clear,
        kept: mask,
        per_namespace,
        selectors: &[0],
    }
}

/// The selectors of Temperature Threshold: over and under each of nine temperatures.
const THRESHOLDS: [u8; 18] = [
    0, 1, 2, 3, 4, 5, 6, 7, 8, 16, 17, 18, 19, 20, 21, 22, 23, 24,
];

/// Returns whether a Set for one selector is also for another: TMPSEL Fh is for each sensor of that
/// THSEL.
fn is_for(named: u8, selector: u8) -> bool
    ensures { result ≡ is_for named selector }
{
    selector == named || (named % 16 == 15 && selector / 16 == named / 16)
}

fn is_for_any(named: u8, selectors: &[u8]) -> bool
    ensures { result ≡ list_any (is_for named) selectors.now }
{
    selectors.iter().any(|selector| is_for(named, *selector))
}

impl Feature {
    /// Every feature, in ascending order of identifiers.
    pub const ALL: [Feature; 8] = [
        Feature::Arbitration,
        Feature::PowerManagement,
        Feature::TemperatureThreshold,
        Feature::ErrorRecovery,
        Feature::VolatileWriteCache,
        Feature::InterruptCoalescing,
        Feature::WriteAtomicityNormal,
        Feature::AsynchronousEventConfiguration,
    ];

    /// States a law: `ALL` has every feature, in ascending order of identifiers. The call does
    /// nothing.
    pub fn all_ascend()
        ensures all { ALL ≡ features }
        ensures ascending { is_ascending ALL ≡ true }
    {}

    /// Returns the feature's row of the table. There is one power state, 0, in bits 4:0 of Power
    /// Management.
    fn row(self) -> FeatureRow
        ensures fid { result.fid ≡ (row_of self).fid }
        ensures name { result.name.now ≡ (row_of self).name }
        ensures mask { result.mask ≡ (row_of self).mask }
        ensures clear { result.clear ≡ (row_of self).clear }
        ensures kept { result.kept ≡ (row_of self).kept }
        ensures per_namespace { result.per_namespace ≡ (row_of self).per_namespace }
        ensures selectors { result.selectors.now ≡ (row_of self).selectors }
    {
        match self {
            Feature::Arbitration => one_value(0x01, "Arbitration", 0xffff_ff07, 0, false),
            Feature::PowerManagement => one_value(0x02, "Power Management", 0xff, 0x1f, false),
            Feature::TemperatureThreshold => FeatureRow {
                fid: 0x04,
                name: "Temperature Threshold",
                mask: 0x3f_ffff,
                clear: 0,
                kept: 0xffff,
                per_namespace: false,
                selectors: &THRESHOLDS,
            },
            Feature::ErrorRecovery => one_value(0x05, "Error Recovery", 0x1_ffff, 0, true),
            Feature::VolatileWriteCache => {
                one_value(0x06, "Volatile Write Cache", 0x1, 0, false)
            }
            Feature::InterruptCoalescing => {
                one_value(0x08, "Interrupt Coalescing", 0xffff, 0, false)
            }
            Feature::WriteAtomicityNormal => {
                one_value(0x0a, "Write Atomicity Normal", 0x1, 0, false)
            }
            Feature::AsynchronousEventConfiguration => {
                one_value(0x0b, "Asynchronous Event Configuration", 0x7fff, 0, false)
            }
        }
    }

    /// Returns the feature with an identifier, if there is one.
    pub fn of(fid: u8) -> Option<Feature>
        ensures { result ≡ feature_of fid }
    {
        match fid {
            0x01 => Some(Feature::Arbitration),
            0x02 => Some(Feature::PowerManagement),
            0x04 => Some(Feature::TemperatureThreshold),
            0x05 => Some(Feature::ErrorRecovery),
            0x06 => Some(Feature::VolatileWriteCache),
            0x08 => Some(Feature::InterruptCoalescing),
            0x0a => Some(Feature::WriteAtomicityNormal),
            0x0b => Some(Feature::AsynchronousEventConfiguration),
            _ => None,
        }
    }

    /// Returns the feature identifier, which no other feature has.
    #[tactic(auto, using(crate::proofs::FeatureTableLaws::feature_at))]
    pub fn fid(self) -> u8
        ensures fid { result ≡ (row_of self).fid }
        ensures found { feature_of (row_of self).fid ≡ Some self }
    {
        self.row().fid
    }

    /// Returns the name, as the standard spells it.
    pub fn name(self) -> &'static str
        ensures { result.now ≡ (row_of self).name }
    {
        self.row().name
    }

    /// Returns whether each namespace has a value of its own.
    pub fn is_per_namespace(self) -> bool
        ensures { result ≡ (row_of self).per_namespace }
    {
        self.row().per_namespace
    }

    /// Returns the selectors under which the feature has values, in ascending order. It is 0 alone
    /// if the feature has one value.
    pub fn selectors(self) -> &'static [u8]
        ensures { result.now ≡ (row_of self).selectors }
    {
        self.row().selectors
    }

    /// Returns the selector in the dword of a Get or a Set. For Temperature Threshold it is bits
    /// 21:16, which is TMPSEL plus 16 times THSEL.
    pub fn selector_in(self, dword: u32) -> u8
        ensures { result ≡ selector_in self dword }
    {
        match self {
            Feature::TemperatureThreshold => bits_of(dword, 16, 6) as u8,
            _ => 0,
        }
    }

    /// Returns whether the feature has a value under the selector.
    pub fn has_selector(self, selector: u8) -> bool
        ensures { result ≡ is_selector self selector }
    {
        self.row().selectors.iter().any(|known| *known == selector)
    }

    /// Returns whether a Set with this dword is for the selector.
    pub fn sets(self, dword: u32, selector: u8) -> bool
        ensures { result ≡ list_any (λ x. x == selector) (selectors_set self dword) }
    {
        is_for(self.selector_in(dword), selector) && self.has_selector(selector)
    }

    #[tactic(auto, using(crate::proofs::FeatureTableLaws::some_kept))]
    fn sets_some(self, dword: u32) -> bool
        ensures { result ≡ nat_lt 0 (length (selectors_set self dword)) }
    {
        is_for_any(self.selector_in(dword), self.selectors())
    }

    /// Returns whether a Set may have this dword: it has no bit outside the mask, the clear bits
    /// are 0, and it is for some selector.
    pub fn accepts(self, dword: u32) -> bool
        ensures { result ≡ is_accepted self dword }
    {
        let row = self.row();
        dword & row.mask == dword && dword & row.clear == 0 && self.sets_some(dword)
    }

    /// Returns what a Set with this dword stores. It is a value if the Set may have the dword.
    #[tactic(auto, using(crate::proofs::FeatureTableLaws::stored_is_value))]
    pub fn stored(self, dword: u32) -> u32
        ensures stored { result ≡ stored self dword }
        ensures value { is_accepted self dword ≡ true → is_value self (stored self dword) ≡ true }
    {
        dword & self.row().kept
    }

    /// Returns whether this may be a stored value.
    pub fn is_value(self, value: u32) -> bool
        ensures { result ≡ is_value self value }
    {
        let row = self.row();
        value & row.kept == value && value & row.clear == 0
    }
}
