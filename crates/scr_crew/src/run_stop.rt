use scr_base::{OutOfMemory, SinkError};

/// Why a run stopped whose verdicts leave while it goes on.
#[derive(Clone, Copy, Debug, PartialEq, Eq)]
pub enum RunStop {
    /// Writing a line failed. A front of the lines is written.
    WriteFault,
    /// There was no memory. A front of the lines is written, maybe all.
    OutOfMemory(OutOfMemory),
}

impl From<OutOfMemory> for RunStop {
    ghost use Rattle.std.specs.Prelude.{◌≡◌};
    ghost use Rattle.scr_crew.specs.declared.run_stop.RunStop.TheVariants as stop;

    ghost from_gives = { λ want made. made ≡ stop.OutOfMemory want };

    fn from(want: OutOfMemory) -> Self {
        RunStop::OutOfMemory(want)
    }
}

impl From<SinkError> for RunStop {
    ghost use Rattle.std.specs.Prelude.{◌≡◌};
    ghost use Rattle.scr_crew.specs.Streamed.{stop_of_sink};

    ghost from_gives = { λ error made. made ≡ stop_of_sink error };

    fn from(error: SinkError) -> Self {
        match error {
            SinkError::Failed => RunStop::WriteFault,
            SinkError::OutOfMemory(want) => RunStop::OutOfMemory(want),
        }
    }
}
