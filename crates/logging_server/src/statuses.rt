//! The status of each command's ending.
ghost use Rattle.std.specs.Prelude.{◌≡◌};
ghost use Rattle.exit_status.specs.declared.status.Status.{Status};
ghost use Rattle.logging_server.specs.Codes.{audit_status, display_status, generate_status};
ghost use Rattle.logging_server.specs.Codes.{replay_status, serve_status};

use cmd_audit::AuditEnd;
use cmd_display::DisplayEnd;
use cmd_gen::{GenerateEnd, ReplayEnd};
use cmd_serve::HostEnd;
use exit_status::Status;

/// How many bytes `display` reads at most: 2^40.
pub(crate) const DISPLAY_LIMIT: u64 = 1_099_511_627_776;

/// How many bytes `replay` and `audit` read at most: 2^28.
pub(crate) const TEXT_LIMIT: u64 = 268_435_456;

/// The ending of a command.
pub(crate) trait Ending {
    ghost meant: { Self → Status };

    /// The status with which the program ends.
    fn status(self) -> Status
        ensures { result ≡ meant self };
}

impl Ending for DisplayEnd {
    ghost meant = { display_status };

    fn status(self) -> Status {
        match self {
            DisplayEnd::Done => Status::Done,
            DisplayEnd::ReadFault => Status::ReadFault,
            DisplayEnd::WriteFault => Status::WriteFault,
            DisplayEnd::NoMemory => Status::NoMemory,
            DisplayEnd::BadRecord { at } => Status::BadRecord { at },
            DisplayEnd::TooLong => Status::TooLong {
                limit: DISPLAY_LIMIT,
            },
        }
    }
}

impl Ending for AuditEnd {
    ghost meant = { audit_status };

    fn status(self) -> Status {
        match self {
            AuditEnd::Legal => Status::Done,
            AuditEnd::BadText { line } => Status::BadText { line },
            AuditEnd::ReadFault => Status::ReadFault,
            AuditEnd::WriteFault => Status::WriteFault,
            AuditEnd::NoMemory => Status::NoMemory,
            AuditEnd::Illegal { at } => Status::Illegal { at },
            AuditEnd::TooLong => Status::TooLong { limit: TEXT_LIMIT },
        }
    }
}

impl Ending for ReplayEnd {
    ghost meant = { replay_status };

    fn status(self) -> Status {
        match self {
            ReplayEnd::Done => Status::Done,
            ReplayEnd::BadText { line } => Status::BadText { line },
            ReplayEnd::ReadFault => Status::ReadFault,
            ReplayEnd::WriteFault => Status::WriteFault,
            ReplayEnd::NoMemory => Status::NoMemory,
            ReplayEnd::TooLong => Status::TooLong { limit: TEXT_LIMIT },
            ReplayEnd::VolumeFault => Status::VolumeFault,
        }
    }
}

impl Ending for HostEnd {
    ghost meant = { serve_status };

    fn status(self) -> Status {
        match self {
            HostEnd::Done => Status::Done,
            HostEnd::WriteFault => Status::WriteFault,
            HostEnd::NetFault => Status::NetFault,
            HostEnd::NoMemory => Status::NoMemory,
            HostEnd::ListenFault => Status::ListenFault,
            HostEnd::VolumeFault => Status::VolumeFault,
        }
    }
}

impl Ending for GenerateEnd {
    ghost meant = { generate_status };

    fn status(self) -> Status {
        match self {
            GenerateEnd::Done => Status::Done,
            GenerateEnd::WriteFault => Status::WriteFault,
            GenerateEnd::NoMemory => Status::NoMemory,
            GenerateEnd::VolumeFault => Status::VolumeFault,
        }
    }
}
