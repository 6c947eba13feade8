//! The log pages that a controller has.

ghost use Rattle.std.specs.Prelude.{◌≡◌};
ghost use Rattle.nv_command.specs.LogPage.{lid_of, log_asked, log_kind};

use crate::transfer::ReplyKind;

/// The log page identifier of Error Information.
pub const ERROR_INFORMATION: u8 = 0x01;

/// The log page identifier of SMART / Health Information.
pub const HEALTH: u8 = 0x02;

/// A log page. Section "Log Page Identifiers".
#[derive(Clone, Copy, Debug, PartialEq, Eq)]
pub enum LogPage {
    ErrorInformation,
    Health,
}

impl LogPage {
    /// Returns the log page identifier, which no other log page has.
    pub fn lid(self) -> u8
        ensures lid { result ≡ lid_of self }
        ensures found { log_asked (lid_of self) ≡ self }
    {
        match self {
            LogPage::ErrorInformation => ERROR_INFORMATION,
            LogPage::Health => HEALTH,
        }
    }

    /// Returns the log page that an identifier asks for. It is the health log for each identifier
    /// that no log page has, which a controller refuses.
    pub fn asked(lid: u8) -> LogPage
        ensures { result ≡ log_asked lid }
    {
        match lid {
            ERROR_INFORMATION => LogPage::ErrorInformation,
            _ => LogPage::Health,
        }
    }

    /// Returns the kind of the reply that brings the log page.
    pub(crate) fn kind(self) -> ReplyKind
        ensures { result ≡ log_kind self }
    {
        match self {
            LogPage::ErrorInformation => ReplyKind::Errors,
            LogPage::Health => ReplyKind::Smart,
        }
    }
}
