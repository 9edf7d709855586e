//! The lines of verdicts, by the names that a program has for them.
ghost use Rattle.std.specs.Prelude.{◌≡◌, ℕ, ◌<◌, ◌^◌, ◌++◌, ◌∷◌, [], List, length, IfOk};
ghost use Rattle.scr_plan.specs.declared.given.Given.{Given};
ghost use Rattle.scr_report.specs.Outcome.{totals_of};

use crate::run_stop::RunStop;
use crate::taker::Taker;
use scr_base::{Batch, OutOfMemory, Sink, Verdict};
use scr_plan::Given;
use scr_program::Program;
use scr_report::put_line;
use std::alloc::Global;
use std::marker::PhantomData;

// Counts a verdict for its name.
#[inline]
fn count(totals: &mut [u64], verdict: Verdict)
    requires { (names : List (List ℕ)) × (so_far : List Given) × (length so_far < 2 ^ 32) × (totals.old ≡ totals_of names so_far) }
    ensures { (names : List (List ℕ)) (so_far : List Given) (given : Given) → totals.old ≡ totals_of names so_far → given.verdict ≡ verdict
        → totals.new ≡ totals_of names (so_far ++ given ∷ []) }
{
    let place = usize::from(verdict.0);
    if place < totals.len() {
        totals[place] += 1;
    }
}

/// Writes the lines of verdicts, and counts how often each name was given.
#[derive(Drop)]
pub struct Lines<P> {
    batch: Batch,
    taken: u32,
    totals: Vec<u64>,
    program: PhantomData<P>,
}

impl<P: Program> Lines<P> {
    /// No verdict is taken.
    pub fn new(alloc: Global) -> Result<Self, OutOfMemory>
        ensures batch { IfOk result (λ it. it.batch ≡ []) }
        ensures taken { IfOk result (λ it. it.taken ≡ 0) }
        ensures totals { IfOk result (λ it. it.totals.items ≡ totals_of P.verdict_names []) }
    {
        Ok(Lines {
            batch: Batch::new(),
            taken: 0,
            totals: vec![in alloc; 0u64; usize::from(P::names())]?,
            program: PhantomData,
        })
    }

    /// How many verdicts were taken, and how often each name was given, in the order of the names.
    pub fn into_counts(self) -> (u32, Vec<u64>)
        ensures taken { result.0 ≡ self.taken }
        ensures totals { result.1.items ≡ self.totals.items }
    {
        (self.taken, self.totals)
    }
}

/// A line for each verdict goes to a sink, by a batch.
impl<P: Program, O: Sink> Taker<O> for Lines<P> {
    ghost use Rattle.std.specs.Prelude.{◌≡◌, []};
    ghost use Rattle.scr_crew.specs.Lines.{AreToWrite, IsStoppedWriting, lacks};

    ghost IsToTake = { AreToWrite O.written O.faults O.wants P.verdict_names };

    ghost IsOut = { λ lines. lines.batch ≡ [] };

    ghost Stopped = { IsStoppedWriting O.written O.faults O.wants P.verdict_names };

    ghost may_lack = { lacks O.written O.faults O.wants P.verdict_names };

    fn take(&mut self, out: &mut O, given: Given) -> Result<(), RunStop> {
        let Some(name) = P::name_of(given.verdict) else {
            unreachable!()
        };
        put_line(name, given.number, &mut self.batch, out)?;
        count(&mut self.totals, given.verdict);
        self.taken += 1;
        Ok(())
    }

    fn flush(&mut self, out: &mut O) -> Result<(), RunStop> {
        Ok(self.batch.finish(out)?)
    }

    fn taken(&self) -> usize {
        self.taken as usize
    }
}
