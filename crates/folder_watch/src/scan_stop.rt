// Why a scan gives no listing.
use folders::OutFault;
use hmr_types::ModName;
use std::alloc::AllocError;

/// Why a scan gives no listing.
#[derive(Debug, Drop)]
pub enum ScanStop {
    /// The tree failed: its count of faults rose.
    TreeFault,
    /// The folder has more than 8,192 modules.
    TooManyNames,
    /// The text of this module has more than 131,072 bytes.
    TextTooLong(ModName),
    /// Memory ran out.
    NoMemory,
}

impl From<OutFault> for ScanStop {
    ghost use Rattle.std.specs.Prelude.{◌≡◌};
    ghost use Rattle.folder_watch.specs.Scans.{stop_of};

    ghost from_gives = { λ fault stop. stop ≡ stop_of fault };

    fn from(fault: OutFault) -> ScanStop {
        match fault {
            OutFault::Failed => ScanStop::TreeFault,
            OutFault::NoMemory => ScanStop::NoMemory,
        }
    }
}

impl From<AllocError> for ScanStop {
    ghost use Rattle.std.specs.Prelude.{◌≡◌};
    ghost use Rattle.folder_watch.specs.declared.scan_stop.ScanStop.TheVariants.{NoMemory};

    ghost from_gives = { λ _ stop. stop ≡ NoMemory };

    fn from(_: AllocError) -> ScanStop {
        ScanStop::NoMemory
    }
}
