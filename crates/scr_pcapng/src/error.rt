ghost use Rattle.std.specs.Prelude.{◌≡◌};

use scr_base::{Failed, OutOfMemory};
use scr_pcap::CaptureError;

/// Why a capture in blocks can't be read, or not on. Blocks are numbered from 1.
#[derive(Clone, Copy, Debug, PartialEq, Eq)]
pub enum NgError {
    /// The bytes end within this block.
    Cut { block: u32 },
    /// The mark of this section has its value in neither order of bytes.
    Mark { block: u32 },
    /// The total length of this block is too small or no multiple of 4, or the second one differs from the first.
    Length { block: u32 },
    /// The major version of this section isn't 1.
    Version { block: u32 },
    /// The unit of this interface's times isn't taken.
    Resolution { block: u32 },
    /// This packet's interface isn't there.
    Interface { block: u32 },
    /// This packet's captured length is above 262,144, or passes the end of its block.
    Captured { block: u32, length: u32 },
    /// This packet isn't an Ethernet frame.
    LinkType { block: u32 },
    /// A packet follows the last one that is taken.
    TooMany { limit: u32 },
    /// A byte follows the last block that is taken.
    TooManyBlocks { limit: u32 },
}

/// Why a capture in either format can't be read, or not on.
#[derive(Clone, Copy, Debug, PartialEq, Eq)]
pub enum AnyError {
    /// A cause of the libpcap file format; never a failure of the source.
    Classic(CaptureError),
    /// A cause of a capture in blocks.
    Ng(NgError),
    /// The source failed.
    ReadFault,
    /// There was no memory for the interfaces.
    OutOfMemory(OutOfMemory),
}

impl From<Failed> for AnyError {
    ghost use Rattle.scr_pcapng.specs.declared.error.AnyError.TheVariants.{ReadFault};

    ghost from_gives = { λ _ error. error ≡ ReadFault };

    fn from(_: Failed) -> Self {
        AnyError::ReadFault
    }
}

impl From<NgError> for AnyError {
    ghost use Rattle.scr_pcapng.specs.declared.error.AnyError.TheVariants.{Ng};

    ghost from_gives = { λ fault error. error ≡ Ng fault };

    fn from(fault: NgError) -> Self {
        AnyError::Ng(fault)
    }
}

impl From<OutOfMemory> for AnyError {
    ghost use Rattle.scr_pcapng.specs.declared.error.AnyError.TheVariants as any_error;

    ghost from_gives = { λ want error. error ≡ any_error.OutOfMemory want };

    fn from(want: OutOfMemory) -> Self {
        AnyError::OutOfMemory(want)
    }
}

impl From<CaptureError> for AnyError {
    ghost use Rattle.scr_pcapng.specs.State.{any_of};

    ghost from_gives = { λ fault error. error ≡ any_of fault };

    fn from(fault: CaptureError) -> Self {
        match fault {
            CaptureError::ReadFault => AnyError::ReadFault,
            fault => AnyError::Classic(fault),
        }
    }
}
