//! The default values of a feature.

ghost use Rattle.std.specs.Prelude.{◌≡◌};
ghost use Rattle.nv_model.specs.Values.{default_at};

/// The values of a feature before any is set.
#[derive(Clone, Copy, Debug, PartialEq, Eq)]
pub enum Defaults {
    /// The default of a feature with one value.
    One(u32),
    /// The defaults of Temperature Threshold, each list by TMPSEL, in kelvins.
    Thresholds { over: [u16; 9], under: [u16; 9] },
}

impl Defaults {
    /// Returns the default under a selector. For thresholds this is TMPSEL, plus 16 for those
    /// under.
    pub fn at(self, selector: u8) -> u32
        ensures { result ≡ default_at self selector }
    {
        match self {
            Defaults::One(value) => value,
            Defaults::Thresholds { over, under } => {
                let number = if selector < 16 {
                    over.get(selector as usize)
                } else {
                    under.get(selector as usize - 16)
                };
                number.copied().unwrap_or(0) as u32
            }
        }
    }
}
