//! Laws about several calls of this crate. Each function here does nothing: its contract is a law
//! about the definitions that the contracts of the calls use.

ghost use Rattle.nv_prp.specs.Buffer.{BuiltIsWalked};
ghost use Rattle.nv_prp.specs.Place.{LaterStays, OthersStay, WrittenIsRead};

/// States a law: a walk over what was built for a buffer finds the places of the buffer's bytes. If
/// the buffer's pages are distinct, so are these places.
pub fn build_then_walk()
    ensures { BuiltIsWalked }
{}

/// States a law: bytes that are copied out to distinct places are read back by copying in.
#[tactic(auto, using(crate::proofs::PlaceLaws::written_is_read))]
pub fn copy_out_then_in()
    ensures { WrittenIsRead }
{}

/// States laws about bytes that are written one after the other: at each place the last one stays,
/// and all other places keep their bytes.
#[tactic(auto, using(crate::proofs::PlaceLaws::later_stays, crate::proofs::PlaceLaws::others_stay))]
pub fn written_one_by_one()
    ensures later { LaterStays }
    ensures others { OthersStay }
{}
