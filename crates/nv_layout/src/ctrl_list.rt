//! Controller lists.

ghost use Rattle.std.specs.Prelude.{◌≡◌, Err, MatchResult, Ok, OnErr};
ghost use Rattle.nv_layout.specs.CtrlList.{CtrlListFits, bytes_of_ctrl_list, ctrl_list_of_bytes};

use crate::few::{Few, Lent};
use crate::parts::{clear, each_u16_fits, put_u16, put_u16s, read_u16s, u16_at};
use thiserror::Error;

/// Why bytes are not a valid record.
#[derive(Clone, Copy, Debug, PartialEq, Eq, Error)]
pub enum LayoutError {
    /// The count of a controller list is greater than 2,047. Section "Controller List".
    #[error("a controller list has more than 2,047 identifiers")]
    CountTooLarge,
}

/// The greatest number of identifiers in a controller list.
pub const MOST_CNTLIDS: usize = 2047;

/// Up to 2,047 controller identifiers. In the list's bytes they follow their number, and zeros
/// follow them. Section "Controller List".
pub type CtrlList = Few<u16, MOST_CNTLIDS>;

/// Up to 2,047 controller identifiers that are borrowed. Section "Controller List".
pub type ControllerIds<'a> = Lent<'a, u16, MOST_CNTLIDS>;

impl<'a> Lent<'a, u16, MOST_CNTLIDS> {
    /// States a law: there are at most 2,047 identifiers, and each fits two bytes. The call does
    /// nothing.
    pub fn fits(&self)
        ensures { CtrlListFits self.now }
    {
        each_u16_fits(self.as_slice());
    }

    /// Writes all 4,096 bytes of the list with these identifiers.
    #[tactic(auto, unfolding(crate::specs::CtrlList::bytes_of_ctrl_list))]
    pub fn put(&self, out: &mut [u8; 4096])
        ensures { out.new ≡ bytes_of_ctrl_list self.now }
    {
        clear(out);
        put_u16(out, 0, self.as_slice().len() as u16);
        put_u16s(out, 2, self.as_slice());
    }
}

impl Few<u16, MOST_CNTLIDS> {
    /// Writes all 4,096 bytes of the list.
    pub fn put(&self, out: &mut [u8; 4096])
        ensures { out.new ≡ bytes_of_ctrl_list self.now }
    {
        self.ids().put(out);
    }

    /// Reads a list from its bytes. Bytes after its last identifier are ignored.
    pub fn get(bytes: &[u8; 4096]) -> Result<CtrlList, LayoutError>
        ensures { result ≡ ctrl_list_of_bytes bytes.now }
    {
        let mut list = CtrlList::new();
        list.read(bytes)?;
        Ok(list)
    }

    /// Replaces this list by that of the bytes, as `get` reads it. After an error the list is
    /// unchanged.
    #[tactic(auto, unfolding(crate::specs::CtrlList::ctrl_list_of_bytes))]
    pub fn read(&mut self, bytes: &[u8; 4096]) -> Result<(), LayoutError>
        ensures found { MatchResult result
            (λ _. ctrl_list_of_bytes bytes.now ≡ Ok self.new)
            (λ error. ctrl_list_of_bytes bytes.now ≡ Err error) }
        ensures err { OnErr result (self.new ≡ self.old) }
    {
        let count = u16_at(bytes, 0) as usize;
        if count > MOST_CNTLIDS {
            return Err(LayoutError::CountTooLarge);
        }
        read_u16s(bytes, 2, &mut self.items[..count]);
        self.len = count;
        Ok(())
    }
}
