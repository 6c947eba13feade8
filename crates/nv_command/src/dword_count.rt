//! Numbers of dwords.

ghost use Rattle.std.specs.Prelude.{◌≡◌, ℕ, ◌+◌, ◌-◌, ◌*◌};

use std::marker::Model;

/// A number of dwords from 1 to 2^32. Entries hold it zeros-based. Section "Get Log Page command".
#[derive(Clone, Copy, Debug, PartialEq, Eq)]
pub struct DwordCount {
    numd: u32,
}

impl Model for DwordCount {
    ghost use Rattle.std.specs.Prelude.{ℕ, ◌+◌, ◌-◌};
    ghost use Rattle.std.proofs.Math.Nat.{add-sub_cancel};

    ghost Value = { ℕ };

    ghost view = { λ s. s.numd + 1 };

    ghost inverse = { λ n. record { numd = n - 1 } };

    ghost inverse_ok = { λ s h i. record { numd = add-sub_cancel s.numd 1 i } };
}

impl DwordCount {
    /// Returns the number of dwords with this zeros-based value (NUMD).
    pub fn from_zeros_based(numd: u32) -> DwordCount
        ensures { result ≡ numd + 1 }
    {
        DwordCount { numd }
    }

    /// Returns the zeros-based value.
    pub fn zeros_based(self) -> u32
        ensures { result + 1 ≡ self }
    {
        self.numd
    }

    /// Returns how many bytes this is.
    pub fn bytes(self) -> u64
        ensures { result ≡ 4 * self }
    {
        4 * (u64::from(self.numd) + 1)
    }
}
