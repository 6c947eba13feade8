//! What a controller of a file says about itself.
ghost use Rattle.std.specs.Prelude.{◌≡◌, ◌==◌, map, IfOk, false};
ghost use Rattle.nv_file.specs.KeyChecks.{is_among};
ghost use Rattle.toml.specs.View.{table_view};
ghost use Rattle.nv_model.specs.IdentityView.{identity_view};
ghost use Rattle.nv_file.specs.TableChecks.{first_identity_checks, identity_checks, identity_value};
ghost use Rattle.nv_file.specs.TableChecks.{numbers_checks, numbers_value};
ghost use Rattle.nv_file.specs.inner.Reading.{IsChecked, IsCheckedBeforeMemory};
ghost use Rattle.nv_model.specs.Ranges.{IsIdentityNumbers, IsIdentity};

use crate::controller::ControllerEntry;
use crate::error::{SubsystemError, ensure};
use crate::key::Key;
use crate::section::Section;
use crate::table_name::TableName;
use nv_model::{Identity, IdentityNumbers};
use std::alloc::Global;
use toml::Table;

#[tactic(auto, using(crate::proofs::CheckLaws::faults), unfolding(crate::proofs::Opens::part))]
fn identity_numbers_of(table: &Table) -> Result<IdentityNumbers, SubsystemError>
    ensures exact { IsChecked (λ n. n) (numbers_checks (table_view table.now))
        (numbers_value (table_view table.now)) result }
    ensures sound { IfOk result IsIdentityNumbers }
{
    let section = Section {
        name: TableName::Controller,
        table,
    };
    let vid = section.integer_or(Key::Vid, 0, 0, 65535)? as u16;
    let ssvid = section.integer_or(Key::Ssvid, 0, 0, 65535)? as u16;
    let rab = section.integer_or(Key::Rab, 0, 0, 255)? as u8;
    let ieee = section.integer_or(Key::Ieee, 0, 0, 16777215)? as u32;
    let mdts = section.integer_or(Key::Mdts, 5, 2, 8)? as u8;
    let elpe = section.integer_or(Key::Elpe, 63, 0, 255)? as u8;
    let wctemp = section.integer_or(Key::Wctemp, 343, 0, 65535)? as u16;
    let cctemp = section.integer_or(Key::Cctemp, 353, 0, 65535)? as u16;
    let vwc = section.integer_or(Key::Vwc, 0, 0, 7)? as u8;
    Ok(IdentityNumbers {
        vid,
        ssvid,
        rab,
        ieee,
        mdts,
        elpe,
        wctemp,
        cctemp,
        vwc,
    })
}

fn has_cntlid(controllers: &[ControllerEntry], cntlid: u16) -> bool
    ensures { result ≡ is_among (map (λ c. c.identity.cntlid) controllers.now) cntlid }
{
    controllers
        .iter()
        .any(|controller| controller.identity.cntlid == cntlid)
}

/// Reads what a controller says about itself. `before` has the controllers before it.
#[tactic(auto, using(crate::proofs::CheckLaws::faults), unfolding(crate::proofs::Opens::whole))]
pub(crate) fn identity_of(
    alloc: Global,
    before: &[ControllerEntry],
    table: &Table,
) -> Result<Identity, SubsystemError>
    ensures exact { IsCheckedBeforeMemory identity_view
        (first_identity_checks (map (λ c. c.identity.cntlid) before.now) (table_view table.now))
        (identity_checks (map (λ c. c.identity.cntlid) before.now) (table_view table.now))
        (identity_value (table_view table.now)) result }
    ensures sound { IfOk result (λ i. IsIdentity (identity_view i)) }
    ensures new { IfOk result
        (λ i. is_among (map (λ c. c.identity.cntlid) before.now) i.cntlid ≡ false) }
{
    let section = Section {
        name: TableName::Controller,
        table,
    };
    let cntlid = section.integer(Key::Cntlid, 0, 65519)? as u16;
    ensure(!has_cntlid(before, cntlid), section.repeated(Key::Cntlid))?;
    let sn = section.text(alloc, Key::Sn, 20)?;
    let mn = section.text(alloc, Key::Mn, 40)?;
    let fr = section.text(alloc, Key::Fr, 8)?;
    let numbers = identity_numbers_of(table)?;
    let crypto_erase = section.flag_or(Key::CryptoErase, false)?;
    Ok(Identity {
        cntlid,
        sn,
        mn,
        fr,
        numbers,
        crypto_erase,
    })
}
