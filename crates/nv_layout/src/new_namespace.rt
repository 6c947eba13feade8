//! What a host asks of a namespace to create.

use crate::parts::{clear, put_u8, put_u64, u8_at, u64_at};

/// The fields of the Identify Namespace data structure that a host chooses when it creates a
/// namespace. Section "Namespace Management command".
#[derive(Clone, Copy, Debug, PartialEq, Eq)]
pub struct NewNamespace {
    /// Namespace Size, in logical blocks.
    pub nsze: u64,
    /// Namespace Capacity, in logical blocks.
    pub ncap: u64,
    /// Formatted LBA Size: the format and where its metadata lies.
    pub flbas: u8,
    /// End-to-end Data Protection Type Settings.
    pub dps: u8,
    /// Namespace Multi-path I/O and Namespace Sharing Capabilities.
    pub nmic: u8,
}

impl NewNamespace {
    ghost use Rattle.std.specs.Prelude.{◌≡◌};
    ghost use Rattle.nv_layout.specs.NewNamespace.{NewNamespaceFits, bytes_of_new_namespace};
    ghost use Rattle.nv_layout.specs.NewNamespace.{NewNamespacePlaces, new_namespace_of_bytes};

    /// States a law: each field fits its bits, as its type says. The call does nothing.
    pub fn fits(self)
        ensures { NewNamespaceFits self }
    {}

    /// States a law: in any bytes, each field is read where the Identify Namespace data structure
    /// has it. The call does nothing.
    pub fn places()
        ensures { NewNamespacePlaces }
    {}

    /// Writes the data's bytes. What a host doesn't choose is 0.
    #[tactic(auto, unfolding(crate::specs::NewNamespace::bytes_of_new_namespace))]
    pub fn put(&self, out: &mut [u8; 4096])
        ensures { out.new ≡ bytes_of_new_namespace self.now }
    {
        clear(out);
        put_u64(out, 0, self.nsze);
        put_u64(out, 8, self.ncap);
        put_u8(out, 26, self.flbas);
        put_u8(out, 29, self.dps);
        put_u8(out, 30, self.nmic);
    }

    /// Reads the data from its bytes. What a host doesn't choose is ignored.
    #[tactic(auto, unfolding(crate::specs::NewNamespace::new_namespace_of_bytes))]
    pub fn get(bytes: &[u8; 4096]) -> NewNamespace
        ensures { result ≡ new_namespace_of_bytes bytes.now }
    {
        NewNamespace {
            nsze: u64_at(bytes, 0),
            ncap: u64_at(bytes, 8),
            flbas: u8_at(bytes, 26),
            dps: u8_at(bytes, 29),
            nmic: u8_at(bytes, 30),
        }
    }
}
