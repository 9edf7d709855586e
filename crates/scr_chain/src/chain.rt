ghost use Rattle.std.specs.Prelude.{◌≡◌, ◌<◌, ℕ, [], List, length, slice_index_or};
ghost use Rattle.scr_chain.specs.Chains.{joined, lets_go_on, passing, chained_verdict, chained_count, chained_names, IsPassTable, chained-named};

use crate::second::Second;
use scr_base::{OutOfMemory, Row, Verdict};
use scr_frame::Parsed;
use scr_program::Program;
use std::alloc::Global;
use std::marker::PhantomData;

/// A chain: what the first program stops isn't seen by the second.
pub struct Chain<A: Program, B: Second> {
    first: PhantomData<A>,
    second: PhantomData<B>,
}

/// The settings of both programs.
#[derive(Drop)]
pub struct ChainSettings<A: Program, B: Second> {
    pub first: A::Settings,
    pub second: B::Settings,
}

/// The state of both programs, and which verdicts of the first let a packet pass, by their codes.
#[derive(Drop)]
pub struct ChainState<A: Program, B: Second> {
    first: A::State,
    second: B::State,
    passes: [bool; 256],
}

/// The name of the verdict on what the first program stops.
const STOPPED: &str = "STOPPED";

impl<A: Program, B: Second> Program for Chain<A, B> {
    type Settings = ChainSettings<A, B>;

    type State = ChainState<A, B>;

    ghost row_of = { λ settings parsed time. joined (A.row_of settings.first parsed time) (B.row_of settings.second parsed time) };

    ghost StandsFor = { λ settings state rows. A.StandsFor settings.first state.first rows
        × B.StandsFor settings.second state.second (passing A.verdict_names (A.verdict_after settings.first) rows)
        × IsPassTable A.verdict_names state.passes };

    ghost verdict_after = { λ settings. chained_verdict A.verdict_names (A.verdict_after settings.first) B.verdict_names (B.verdict_after settings.second) };

    ghost count_after = { λ settings. chained_count A.verdict_names (A.verdict_after settings.first) (A.count_after settings.first) (B.count_after settings.second) };

    ghost IsReady = { λ settings state row. A.IsReady settings.first state.first row × B.IsReady settings.second state.second row };

    ghost verdict_names = { chained_names B.verdict_names };

    ghost is_named = { λ settings. chained-named A.verdict_names (A.verdict_after settings.first) B.verdict_names (B.verdict_after settings.second) (B.is_named settings.second) };

    #[inline(always)]
    fn extract(settings: &ChainSettings<A, B>, parsed: &Parsed, time: u64) -> Row {
        let first = A::extract(&settings.first, parsed, time);
        let second = B::extract(&settings.second, parsed, time);
        join(&first, &second)
    }

    fn fresh(alloc: Global, settings: &ChainSettings<A, B>) -> Result<Self::State, OutOfMemory> {
        let mut passes = [false; 256];
        for code in 0..A::names() {
            passes[usize::from(code)] = A::name_of(Verdict(code)).is_some_and(|name| lets_go_on(
                name,
            ));
        }
        Ok(ChainState {
            first: A::fresh(alloc, &settings.first)?,
            second: B::fresh(alloc, &settings.second)?,
            passes,
        })
    }

    fn prepare(
        settings: &ChainSettings<A, B>,
        state: &mut Self::State,
        row: &Row,
    ) -> Result<(), OutOfMemory> {
        A::prepare(&settings.first, &mut state.first, row)?;
        B::prepare(&settings.second, &mut state.second, row)
    }

    // The second is prepared before the first takes its step, so that a refused step changes nothing.
    #[inline(always)]
    fn step(
        settings: &ChainSettings<A, B>,
        state: &mut Self::State,
        row: &Row,
    ) -> Result<Verdict, OutOfMemory> {
        B::prepare(&settings.second, &mut state.second, row)?;
        let verdict = A::step(&settings.first, &mut state.first, row)?;
        if !state.passes[usize::from(verdict.0)] {
            return Ok(Verdict(B::names()));
        }
        B::step(&settings.second, &mut state.second, row)
    }

    fn flows(settings: &ChainSettings<A, B>, state: &Self::State) -> u64 {
        A::flows(&settings.first, &state.first).saturating_add(B::flows(
            &settings.second,
            &state.second,
        ))
    }

    fn names() -> u8 {
        B::names() + 1
    }

    fn name_of(verdict: Verdict) -> Option<&'static str> {
        if verdict.0 == B::names() {
            Some(STOPPED)
        } else {
            B::name_of(verdict)
        }
    }
}

// The rows of both programs, word by word.
#[inline(always)]
fn join(first: &Row, second: &Row) -> Row
    ensures { result ≡ joined first.now second.now }
{
    Row {
        w0: first.w0 | second.w0,
        w1: first.w1 | second.w1,
        w2: first.w2 | second.w2,
        w3: first.w3 | second.w3,
        w4: first.w4 | second.w4,
        w5: first.w5 | second.w5,
        w6: first.w6 | second.w6,
    }
}

// Whether a verdict of this name lets its packet pass.
fn lets_go_on(name: &str) -> bool
    ensures { result ≡ lets_go_on name.now }
{
    name == "PASS" || name == "OTHER"
}
