use scr_plan::{CoreCounts, Given};
use std::marker::Model;

/// What one core makes of a run, beside its verdicts.
#[derive(Clone, Copy, Debug, PartialEq, Eq)]
pub struct CoreTally {
    /// The number of the core, from 0.
    pub core: u32,
    /// What it did.
    pub counts: CoreCounts,
    /// The entries of its last state.
    pub flows: u64,
}

/// What one core makes of a run.
#[derive(Debug, Drop)]
pub struct CoreResult {
    /// The number of the core, from 0.
    pub core: u32,
    /// The verdicts at the frames that were delivered to it, in the order of the frames.
    pub verdicts: Vec<Given>,
    /// What it did.
    pub counts: CoreCounts,
    /// The entries of its last state.
    pub flows: u64,
}

impl Model for CoreResult {
    ghost use Rattle.scr_replica.specs.Answers.{CoreAnswer};

    ghost Value = { CoreAnswer };

    ghost view = { λ it. record {
      core = it.core;
      verdicts = it.verdicts.items;
      counts = it.counts;
      flows = it.flows;
    } };
}

/// What all cores make of a run.
#[derive(Debug, Drop)]
pub struct Gathered {
    /// The verdicts at the frames that were delivered, in the order of the frames.
    pub verdicts: Vec<Given>,
    /// What each core did, from core 0 on.
    pub cores: Vec<CoreCounts>,
    /// The entries of the last state, on which all cores agree.
    pub flows: u64,
}

impl Model for Gathered {
    ghost use Rattle.scr_replica.specs.Answers.{Answer};

    ghost Value = { Answer };

    ghost view = { λ it. record {
      verdicts = it.verdicts.items;
      cores = it.cores.items;
      flows = it.flows;
    } };
}
