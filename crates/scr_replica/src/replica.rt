ghost use Rattle.std.specs.Prelude.{◌≡◌, ◌≢◌, ◌+◌, ◌≤◌, ◌↔◌, ℕ, [], Some, IfOk, IfErr, IsTrue};
ghost use Rattle.scr_plan.specs.FinalEntry.{final_entry};
ghost use Rattle.scr_wire.specs.Lane.{decided};
ghost use Rattle.scr_log.specs.declared.view.Noted.TheVariants.{Halt};
ghost use Rattle.scr_log.specs.Passes.{looked};
ghost use Rattle.scr_replica.specs.OneCore.{kept_rows};
ghost use Rattle.scr_replica.specs.Replicas.{Begin, IsReplica, Stands};
ghost use Rattle.scr_replica.specs.declared.standing.Standing.TheVariants as standing;
ghost use Rattle.scr_replica.specs.declared.worker.CoreCause.TheVariants as cause;

use crate::applying::NONE;
use crate::heard::Heard;
use crate::standing::Standing;
use crate::worker::{CoreCause, CoreStop};
use scr_base::Row;
use scr_lane::ReceiveEnd;
use scr_log::{CorePass, Logs};
use scr_plan::CoreCounts;
use scr_program::Program;
use scr_wire::Packet;
use std::alloc::Global;
use std::marker::Model;

/// A core in a thread: it takes the messages of its lane, publishes what they decide, and takes the packets one after
/// another, with its own row or one that another core's log has.
#[derive(Drop)]
pub struct Replica<P: Program> {
    pub(crate) lane: ReceiveEnd,
    pub(crate) pass: CorePass,
    pub(crate) state: P::State,
    pub(crate) heard: Heard,
    // The packet that it took before the last, until it is asked for.
    pub(crate) spent: Option<Packet>,
    // The row of the packet at hand as published, once it is.
    pub(crate) row: Option<Row>,
    pub(crate) finished: u32,
    // How many cores were seen to have lost the packet at hand, in the order of asking.
    pub(crate) asked: u32,
    pub(crate) cores: u32,
    pub(crate) history: u32,
    pub(crate) counts: CoreCounts,
    pub(crate) standing: Standing,
}

impl<P: Program> Model for Replica<P> {
    ghost use Rattle.scr_replica.specs.Replicas as seen;
    ghost use Rattle.scr_replica.specs.Stages.{replica_of, Keeps};

    ghost Value = { seen.Replica P.State };

    ghost view = { λ it. replica_of it.lane it.pass it.state it.counts it.asked it.standing };

    ghost invariant = { λ it. Keeps (replica_of it.lane it.pass it.state it.counts it.asked it.standing) it.heard it.row it.finished it.cores it.history };
}

impl<P: Program> Replica<P> {
    /// A core that has done nothing, with the end of its lane and its pass.
    ///
    /// # Errors
    /// Where there is no memory for the program's state. The pass comes back unchanged.
    pub fn make(
        alloc: Global,
        settings: &P::Settings,
        lane: ReceiveEnd,
        pass: CorePass,
        logs: &Logs,
    ) -> Result<Replica<P>, CoreStop>
        requires begin { Begin lane pass }
        requires of_these { pass.logs ≡ logs.now }
        ensures stands { IfOk result (Stands (P.StandsFor settings.now)) }
        ensures replica { IfOk result IsReplica }
        ensures running { IfOk result (λ it. it.standing ≡ standing.Running) }
        ensures lane { IfOk result (λ it. it.lane ≡ lane) }
        ensures pass { IfOk result (λ it. it.pass ≡ pass) }
        ensures unchanged { IfErr result (λ stop. stop.pass ≡ pass) }
        ensures cause { IfErr result (λ stop. stop.cause ≢ cause.Halted) }
    {
        let cores = logs.cores();
        let history = logs.history();
        let _core = pass.core();
        match P::fresh(alloc, settings) {
            Ok(state) => Ok(Replica {
                lane,
                pass,
                state,
                heard: Heard::nothing(),
                spent: None,
                row: None,
                finished: 0,
                asked: 0,
                cores,
                history,
                counts: NONE,
                standing: Standing::Running,
            }),
            Err(error) => Err(CoreStop {
                pass,
                cause: CoreCause::OutOfMemory(error),
            }),
        }
    }

    /// Its pass.
    #[inline(always)]
    pub fn pass(&self) -> &CorePass
        ensures pass { result.now ≡ self.now.pass }
        ensures replica { IsReplica self.now }
    {
        &self.pass
    }

    /// Whether the halt word was 1 when this call loaded it. Nothing else changes.
    pub fn halted(&mut self, logs: &Logs) -> bool
        requires { self.old.pass.logs ≡ logs.now }
        ensures { (value : ℕ) × (self.new ≡ record self.old { pass = looked self.old.pass (Halt value) }) × (IsTrue result ↔ (value ≡ 1)) }
    {
        logs.halted(&mut self.pass)
    }

    /// The packet that it took before the last, once: it needs that no more. It can go back to the thread whose memory it
    /// is. Without this it is dropped when the next message is taken.
    #[inline(always)]
    pub fn spent(&mut self) -> Option<Packet>
        ensures { self.new ≡ self.old }
    {
        self.spent.take()
    }

    /// Its pass, its counts and the entries of its state. The end of its lane is given up.
    pub fn take_apart(self, settings: &P::Settings) -> (CorePass, CoreCounts, u64)
        requires stands { Stands (P.StandsFor settings.now) self }
        ensures pass { result.0 ≡ self.pass }
        ensures counts { result.1 ≡ self.counts }
        ensures flows { result.2 ≡ P.count_after settings.now (kept_rows self.pass.logs.plan self.pass.finished) }
        ensures replica { IsReplica self }
    {
        let flows = P::flows(settings, &self.state);
        (self.pass, self.counts, flows)
    }
}
