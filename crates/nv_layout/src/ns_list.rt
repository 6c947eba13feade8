//! Namespace lists.

ghost use Rattle.std.specs.Prelude.{◌≡◌};
ghost use Rattle.nv_layout.specs.NsList.{bytes_of_ns_list, ns_list_of_bytes};

use crate::few::{Few, Lent};
use crate::parts::{clear, put_u32s, u32_at};

/// The greatest number of identifiers in a namespace list.
pub const MOST_NSIDS: usize = 1024;

/// Up to 1,024 namespace identifiers. In the list's bytes zeros follow them, so a 0 among them ends
/// the list. Section "Namespace List".
pub type NsList = Few<u32, MOST_NSIDS>;

/// Up to 1,024 namespace identifiers that are borrowed. Section "Namespace List".
pub type NamespaceIds<'a> = Lent<'a, u32, MOST_NSIDS>;

impl<'a> Lent<'a, u32, MOST_NSIDS> {
    /// Writes all 4,096 bytes of the list with these identifiers.
    pub fn put(&self, out: &mut [u8; 4096])
        ensures { out.new ≡ bytes_of_ns_list self.now }
    {
        clear(out);
        put_u32s(out, 0, self.as_slice());
    }
}

impl Few<u32, MOST_NSIDS> {
    /// Writes all 4,096 bytes of the list.
    pub fn put(&self, out: &mut [u8; 4096])
        ensures { out.new ≡ bytes_of_ns_list self.now }
    {
        self.ids().put(out);
    }

    /// Reads a list from its bytes. It ends at the first zero.
    pub fn get(bytes: &[u8; 4096]) -> NsList
        ensures { result ≡ ns_list_of_bytes bytes.now }
    {
        let mut list = NsList::new();
        list.read(bytes);
        list
    }

    /// Replaces this list by that of the bytes, as `get` reads it.
    pub fn read(&mut self, bytes: &[u8; 4096])
        ensures { self.new ≡ ns_list_of_bytes bytes.now }
    {
        self.clear();
        for i in 0..MOST_NSIDS {
            let nsid = u32_at(bytes, 4 * i);
            if nsid == 0 {
                return;
            }
            self.push(nsid);
        }
    }
}
