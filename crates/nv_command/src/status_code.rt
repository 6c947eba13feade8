//! Status codes.

ghost use Rattle.std.specs.Prelude.{◌≡◌, Option};
ghost use Rattle.nv_command.specs.StatusCode.{first_code, name_of_code, name_of_status, row_of};
ghost use Rattle.nv_command.specs.StatusCode.{status_of_code};

use nv_layout::{LayoutError, Status};
use std::error::Error;
use std::fmt;

/// The status codes of refusals. Section "Status Code".
#[derive(Clone, Copy, Debug, PartialEq, Eq)]
pub enum StatusCode {
    InvalidCommandOpcode,
    InvalidFieldInCommand,
    DataTransferError,
    InvalidNamespaceOrFormat,
    PrpOffsetInvalid,
    InvalidLogPage,
    InvalidFormat,
    FeatureIdentifierNotSaveable,
    FeatureNotChangeable,
    FeatureNotNamespaceSpecific,
    NamespaceInsufficientCapacity,
    NamespaceIdentifierUnavailable,
    NamespaceAlreadyAttached,
    NamespaceIsPrivate,
    NamespaceNotAttached,
    ThinProvisioningNotSupported,
    ControllerListInvalid,
}

/// What the table says about a status code.
#[derive(Clone, Copy)]
struct StatusRow {
    /// Status Code Type.
    sct: u8,
    /// Status Code.
    sc: u8,
    name: &'static str,
}

impl StatusCode {
    /// Every status code.
    pub const ALL: [StatusCode; 17] = [
        StatusCode::InvalidCommandOpcode,
        StatusCode::InvalidFieldInCommand,
        StatusCode::DataTransferError,
        StatusCode::InvalidNamespaceOrFormat,
        StatusCode::PrpOffsetInvalid,
        StatusCode::InvalidLogPage,
        StatusCode::InvalidFormat,
        StatusCode::FeatureIdentifierNotSaveable,
        StatusCode::FeatureNotChangeable,
        StatusCode::FeatureNotNamespaceSpecific,
        StatusCode::NamespaceInsufficientCapacity,
        StatusCode::NamespaceIdentifierUnavailable,
        StatusCode::NamespaceAlreadyAttached,
        StatusCode::NamespaceIsPrivate,
        StatusCode::NamespaceNotAttached,
        StatusCode::ThinProvisioningNotSupported,
        StatusCode::ControllerListInvalid,
    ];

    fn row(self) -> StatusRow
        ensures sct { result.sct ≡ (row_of self).sct }
        ensures sc { result.sc ≡ (row_of self).sc }
        ensures name { result.name.now ≡ (row_of self).name }
    {
        let (sct, sc, name) = match self {
            StatusCode::InvalidCommandOpcode => (0, 0x01, "Invalid Command Opcode"),
            StatusCode::InvalidFieldInCommand => (0, 0x02, "Invalid Field in Command"),
            StatusCode::DataTransferError => (0, 0x04, "Data Transfer Error"),
            StatusCode::InvalidNamespaceOrFormat => (0, 0x0b, "Invalid Namespace or Format"),
            StatusCode::PrpOffsetInvalid => (0, 0x13, "PRP Offset Invalid"),
            StatusCode::InvalidLogPage => (1, 0x09, "Invalid Log Page"),
            StatusCode::InvalidFormat => (1, 0x0a, "Invalid Format"),
            StatusCode::FeatureIdentifierNotSaveable => (
                1,
                0x0d,
                "Feature Identifier Not Saveable",
            ),
            StatusCode::FeatureNotChangeable => (1, 0x0e, "Feature Not Changeable"),
            StatusCode::FeatureNotNamespaceSpecific => (1, 0x0f, "Feature Not Namespace Specific"),
            StatusCode::NamespaceInsufficientCapacity => (
                1,
                0x15,
                "Namespace Insufficient Capacity",
            ),
            StatusCode::NamespaceIdentifierUnavailable => (
                1,
                0x16,
                "Namespace Identifier Unavailable",
            ),
            StatusCode::NamespaceAlreadyAttached => (1, 0x18, "Namespace Already Attached"),
            StatusCode::NamespaceIsPrivate => (1, 0x19, "Namespace Is Private"),
            StatusCode::NamespaceNotAttached => (1, 0x1a, "Namespace Not Attached"),
            StatusCode::ThinProvisioningNotSupported => (
                1,
                0x1b,
                "Thin Provisioning Not Supported",
            ),
            StatusCode::ControllerListInvalid => (1, 0x1c, "Controller List Invalid"),
        };
        StatusRow { sct, sc, name }
    }

    /// Returns the status of a refusal with this code. It says that the error log has more (More),
    /// and that a retry doesn't help (Do Not Retry).
    pub fn status(self) -> Status
        ensures { result ≡ status_of_code self }
    {
        let row = self.row();
        Status {
            sc: row.sc,
            sct: row.sct,
            crd: 0,
            more: true,
            dnr: true,
        }
    }

    /// Returns the name, as the standard spells it. It is also the name of its status.
    #[tactic(auto, using(crate::proofs::StatusNames::named_by_status))]
    pub fn name(self) -> &'static str
        ensures name { result.now ≡ name_of_code self }
        ensures status { name_of_status (status_of_code self) ≡ name_of_code self }
    {
        self.row().name
    }

    /// Returns the first of the given codes that has the type and the code of a status.
    fn first_of(codes: &[StatusCode], status: Status) -> Option<StatusCode>
        ensures { result ≡ first_code codes.now status }
    {
        codes.iter().copied().find(|code| {
            let row = code.row();
            row.sct == status.sct && row.sc == status.sc
        })
    }

    /// Returns the name of a status, by its type and its code, or `Unknown` if it has none of these
    /// codes.
    pub fn name_of(status: Status) -> &'static str
        ensures { result.now ≡ name_of_status status }
    {
        match StatusCode::first_of(&StatusCode::ALL, status) {
            Some(code) => code.name(),
            None => "Unknown",
        }
    }
}

impl From<LayoutError> for StatusCode {
    ghost use Rattle.std.specs.Prelude.{◌≡◌};
    ghost use Rattle.nv_command.specs.StatusCode.{code_of_layout};

    ghost from_gives = { λ error code. code ≡ code_of_layout error };

    /// Returns the status code with which such data is refused.
    fn from(error: LayoutError) -> StatusCode {
        match error {
            LayoutError::CountTooLarge => StatusCode::ControllerListInvalid,
        }
    }
}

impl fmt::Display for StatusCode {
    ghost use Rattle.std.specs.Prelude.{Some};
    ghost use Rattle.nv_command.specs.StatusCode.{name_of_code};

    ghost output = { λ code. Some (name_of_code code) };

    fn fmt<W: fmt::Write>(&self, f: &mut fmt::Formatter<W>) -> fmt::Result {
        f.write_str(self.name())
    }
}

impl Error for StatusCode {}
