ghost use Rattle.std.specs.Prelude.{◌≡◌};
ghost use Rattle.scr_run.specs.Ends.{ended};
ghost use Rattle.scr_run.specs.FaultLines.{code_of};

use scr_base::{OutOfMemory, SinkError};
use scr_crew::RunStop;
use scr_pcap::CaptureError;
use scr_pcapng::{AnyError, NgError};
use scr_stream::StreamError;
use scr_words::{WordFault, WordsError};

/// The exit code of a run that had no memory.
pub(crate) const WANT_CODE: u8 = 5;

/// How a run ended. Each status but the first has a line, which [`write_fault_line`](crate::write_fault_line) writes.
#[derive(Clone, Copy, Debug, PartialEq, Eq)]
pub enum Status {
    /// The input was read to its end, and the report, or the stream of a spray, is written whole.
    Done,
    /// The words of the command line are refused. The input is not read.
    Words(WordFault),
    /// A capture in the libpcap file format is malformed: its first fault. Nothing is written.
    Capture(CaptureError),
    /// Reading the input failed. Nothing is written.
    ReadFault,
    /// Writing the report failed. A front of it is written.
    WriteFault,
    /// There was no memory. Nothing is written, or a front of the report.
    OutOfMemory(OutOfMemory),
    /// The capture has more records than this, the most that are taken. Nothing is written.
    TooMany { limit: u32 },
    /// A capture in blocks (pcapng) is malformed: its first fault. Nothing is written.
    Pcapng(NgError),
    /// A stream that is replayed is malformed: its first fault. Nothing is written.
    Stream(StreamError),
}

impl Status {
    /// How a run ended that answered this.
    pub(crate) fn of(answer: Result<(), Status>) -> Self
        ensures { result ≡ ended answer }
    {
        match answer {
            Ok(()) => Status::Done,
            Err(status) => status,
        }
    }

    /// The exit code of a program that ends so: 0 where it is done, else 1 to 8.
    pub fn code(&self) -> u8
        ensures { result ≡ code_of self.now }
    {
        match self {
            Status::Done => 0,
            Status::Words(_) => 1,
            Status::Capture(_) => 2,
            Status::ReadFault => 3,
            Status::WriteFault => 4,
            Status::OutOfMemory(_) => WANT_CODE,
            Status::TooMany { .. } => 6,
            Status::Pcapng(_) => 7,
            Status::Stream(_) => 8,
        }
    }
}

impl From<CaptureError> for Status {
    ghost use Rattle.std.specs.Prelude.{◌≡◌};
    ghost use Rattle.scr_run.specs.Asked.{status_of_classic};

    ghost from_gives = { λ error status. status ≡ status_of_classic error };

    fn from(error: CaptureError) -> Self {
        match error {
            CaptureError::ReadFault => Status::ReadFault,
            CaptureError::TooMany { limit } => Status::TooMany { limit },
            malformed => Status::Capture(malformed),
        }
    }
}

impl From<NgError> for Status {
    ghost use Rattle.std.specs.Prelude.{◌≡◌};
    ghost use Rattle.scr_run.specs.Asked.{status_of_blocks};

    ghost from_gives = { λ error status. status ≡ status_of_blocks error };

    fn from(error: NgError) -> Self {
        match error {
            NgError::TooMany { limit } => Status::TooMany { limit },
            malformed => Status::Pcapng(malformed),
        }
    }
}

impl From<AnyError> for Status {
    ghost use Rattle.std.specs.Prelude.{◌≡◌};
    ghost use Rattle.scr_run.specs.Asked.{status_of};

    ghost from_gives = { λ error status. status ≡ status_of error };

    fn from(error: AnyError) -> Self {
        match error {
            AnyError::Classic(fault) => fault.into(),
            AnyError::Ng(fault) => fault.into(),
            AnyError::ReadFault => Status::ReadFault,
            AnyError::OutOfMemory(want) => Status::OutOfMemory(want),
        }
    }
}

impl From<StreamError> for Status {
    ghost use Rattle.std.specs.Prelude.{◌≡◌};
    ghost use Rattle.scr_run.specs.Asked.{status_of_stream};

    ghost from_gives = { λ error status. status ≡ status_of_stream error };

    fn from(error: StreamError) -> Self {
        match error {
            StreamError::ReadFault => Status::ReadFault,
            StreamError::OutOfMemory(want) => Status::OutOfMemory(want),
            malformed => Status::Stream(malformed),
        }
    }
}

impl From<OutOfMemory> for Status {
    ghost use Rattle.std.specs.Prelude.{◌≡◌};
    ghost use Rattle.scr_run.specs.declared.status.Status.TheVariants as status;

    ghost from_gives = { λ want made. made ≡ status.OutOfMemory want };

    fn from(want: OutOfMemory) -> Self {
        Status::OutOfMemory(want)
    }
}

impl From<SinkError> for Status {
    ghost use Rattle.std.specs.Prelude.{◌≡◌};
    ghost use Rattle.scr_run.specs.Ends.{status_of_sink};

    ghost from_gives = { λ error status. status ≡ status_of_sink error };

    fn from(error: SinkError) -> Self {
        match error {
            SinkError::Failed => Status::WriteFault,
            SinkError::OutOfMemory(want) => Status::OutOfMemory(want),
        }
    }
}

impl From<RunStop> for Status {
    ghost use Rattle.std.specs.Prelude.{◌≡◌};
    ghost use Rattle.scr_run.specs.Ends.{status_of_stop};

    ghost from_gives = { λ stop status. status ≡ status_of_stop stop };

    fn from(stop: RunStop) -> Self {
        match stop {
            RunStop::WriteFault => Status::WriteFault,
            RunStop::OutOfMemory(want) => Status::OutOfMemory(want),
        }
    }
}

impl From<WordsError> for Status {
    ghost use Rattle.std.specs.Prelude.{◌≡◌};
    ghost use Rattle.scr_run.specs.Ends.{status_of_words};

    ghost from_gives = { λ error status. status ≡ status_of_words error };

    fn from(error: WordsError) -> Self {
        match error {
            WordsError::Refused(fault) => Status::Words(fault),
            WordsError::OutOfMemory(want) => Status::OutOfMemory(want),
        }
    }
}
