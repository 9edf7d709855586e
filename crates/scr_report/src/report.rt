ghost use Rattle.std.specs.Prelude.{◌≡◌, IfOk};
ghost use Rattle.scr_report.specs.Outcome.{Outcome, report_of};

use crate::names::Names;
use crate::totals::totals_of;
use scr_base::OutOfMemory;
use scr_plan::{CoreCounts, Given};
use std::alloc::{AllocFailed, Global};
use std::marker::Model;

/// The counts of the line of frames.
#[derive(Clone, Copy, Debug, PartialEq, Eq)]
pub struct FrameCounts {
    /// How many frames there are.
    pub frames: u32,
    /// How many of them were delivered.
    pub delivered: u32,
    /// How many packets some delivered frame carries.
    pub kept: u32,
}

/// What a run found.
#[derive(Debug, Drop)]
pub struct Report {
    /// The verdicts, in the order of the frames.
    pub verdicts: Vec<Given>,
    /// How many frames there are.
    pub frames: u32,
    /// How many of them were delivered.
    pub delivered: u32,
    /// How many packets some delivered frame carries.
    pub kept: u32,
    /// The counts of each core, from core 0 on.
    pub cores: Vec<CoreCounts>,
    /// The flows of the last state.
    pub flows: u64,
    /// How often each name was given, in the order of the names.
    pub totals: Vec<u64>,
}

impl Model for Report {
    ghost use Rattle.scr_report.specs.Outcome.{Outcome};

    ghost Value = { Outcome };

    ghost view = { λ report. record {
      verdicts = report.verdicts.items;
      frames = report.frames;
      delivered = report.delivered;
      kept = report.kept;
      cores = report.cores.items;
      flows = report.flows;
      totals = report.totals.items;
    } };
}

impl Report {
    /// The report of these verdicts and counts. How often each name was given is counted here.
    pub fn of(
        alloc: Global,
        names: &Names,
        verdicts: Vec<Given>,
        counts: FrameCounts,
        cores: Vec<CoreCounts>,
        flows: u64,
    ) -> Result<Self, OutOfMemory>
        ensures { IfOk result (λ report. report ≡ report_of names.now verdicts.items counts.frames counts.delivered counts.kept cores.items flows) }
    {
        let totals = totals_of(alloc, names, &verdicts)?;
        Ok(Report {
            verdicts,
            frames: counts.frames,
            delivered: counts.delivered,
            kept: counts.kept,
            cores,
            flows,
            totals,
        })
    }
}

/// Why some bytes are no report.
#[derive(Clone, Copy, Debug, PartialEq, Eq)]
pub enum ReportError {
    /// This line, from 1, is the first that isn't allowed behind those before it, or has no line feed.
    Line { line: u32 },
    /// The bytes end behind whole lines that are allowed, and this line is missing.
    Ended { line: u32 },
    /// There was no memory for the report.
    OutOfMemory(OutOfMemory),
}

impl<T: Drop> From<AllocFailed<T>> for ReportError {
    ghost use Rattle.scr_report.specs.Memory.{IsOfMemory};

    ghost from_gives = { λ _ error. IsOfMemory error };

    fn from(failed: AllocFailed<T>) -> Self {
        ReportError::OutOfMemory(failed.into())
    }
}
