//! The turns of a replica.
ghost use Rattle.std.specs.Prelude.{◌≡◌, ◌≢◌, ◌+◌, ◌<◌, ◌≤◌, ℕ, List, None};
ghost use Rattle.std.specs.Option.{option_copied};
ghost use Rattle.scr_plan.specs.Delivered.{delivers_to};
ghost use Rattle.scr_plan.specs.Kept.{carries_to};
ghost use Rattle.scr_plan.specs.FinalEntry.{final_entry};
ghost use Rattle.scr_wire.specs.Lane.{decided};
ghost use Rattle.scr_replica.specs.declared.standing.Standing.TheVariants as standing;
ghost use Rattle.scr_replica.specs.OneCore.{kept_row};
ghost use Rattle.scr_replica.specs.Replicas as seen;
ghost use Rattle.scr_replica.specs.Replicas.{IsReplica, Stands, at_hand, asked};
ghost use Rattle.scr_replica.specs.Turns.{TurnTells, GivesVerdict, WaitsFor};
ghost use Rattle.scr_replica.specs.Stages.{turn_of, HasOnlyLooked, Rests, IsTurn};

use crate::applying::{apply, count};
use crate::replica::Replica;
use crate::standing::Standing;
use crate::turn::{Pending, Turn};
use scr_base::Row;
use scr_log::{Logs, Look, Room};
use scr_plan::{Given, core_of};
use scr_program::Program;
use std::sync::Wait;

// The answer of a turn that has finished a packet, with its verdict, where there is one.
#[inline(always)]
fn turn_of(given: Option<Given>) -> Turn
    ensures { result ≡ turn_of given }
{
    match given {
        Some(given) => Turn::Verdict {
            number: given.number,
            verdict: given.verdict,
        },
        None => Turn::Moved,
    }
}

impl<P: Program> Replica<P> {
    // Nothing can be done yet: the answer is that, unless the halt word is set.
    #[inline]
    fn wait(&mut self, logs: &Logs, pending: Pending) -> Turn
        requires of_these { self.old.pass.logs ≡ logs.now }
        requires running { self.old.standing ≡ standing.Running }
        ensures { (before : seen.Replica P.State) → HasOnlyLooked before self.old → WaitsFor before self.old pending → Rests before self.new result }
    {
        if logs.halted(&mut self.pass) {
            self.standing = Standing::Halted;
            return Turn::Halted;
        }
        Turn::Waiting(pending)
    }

    // All that was decided is finished: takes the next message, or is at the end.
    #[inline]
    fn take<R: Wait>(&mut self, rt: &R, logs: &Logs) -> Turn
        requires of_these { self.old.pass.logs ≡ logs.now }
        requires running { self.old.standing ≡ standing.Running }
        requires through { self.old.pass.finished ≡ decided self.old.pass.logs.plan self.old.pass.core self.old.lane.count }
        ensures { Rests self.old self.new result }
    {
        if self.heard.is_whole() {
            self.standing = Standing::Ended;
            return Turn::Ended;
        }
        if !self.lane.has_item() {
            return self.wait(logs, Pending::Empty);
        }
        let packet = self.lane.pop(rt);
        self.spent = self.heard.take(packet, self.history);
        Turn::Moved
    }

    // Publishes the packet at hand.
    #[inline]
    fn publish(&mut self, logs: &Logs) -> Turn
        requires of_these { self.old.pass.logs ≡ logs.now }
        requires running { self.old.standing ≡ standing.Running }
        requires idle { self.old.pass.published ≡ self.old.pass.finished }
        requires decided { at_hand self.old ≤ decided self.old.pass.logs.plan self.old.pass.core self.old.lane.count }
        ensures { Rests self.old self.new result }
    {
        let p = self.finished + 1;
        let row = self.heard.entry(p);
        match logs.publish(&mut self.pass, p, row.as_ref()) {
            Room::Free => {
                self.row = row;
                Turn::Moved
            }
            Room::NoRoom { core, done } => self.wait(logs, Pending::NoRoom { core, done }),
        }
    }

    // Whether the frame of the packet at hand was delivered to this core.
    #[inline(always)]
    fn is_own(&self) -> bool
        requires { self.now.pass.published ≡ at_hand self.now }
        ensures { result ≡ delivers_to self.now.pass.logs.plan self.now.pass.core (at_hand self.now) }
    {
        self.row.is_some() && self.finished + 1 == self.heard.decided()
    }

    // Whether a frame that was delivered to this core carries the packet at hand.
    #[inline(always)]
    fn knows(&self) -> bool
        requires { self.now.pass.published ≡ at_hand self.now }
        ensures { result ≡ carries_to self.now.pass.logs.plan self.now.pass.core (at_hand self.now) }
    {
        self.row.is_some()
    }

    // Applies the packet at hand with the row that is kept, or passes it over where none is, and finishes it.
    #[inline]
    fn finish(&mut self, settings: &P::Settings, logs: &Logs, row: Option<&Row>) -> Turn
        requires of_these { self.old.pass.logs ≡ logs.now }
        requires running { self.old.standing ≡ standing.Running }
        requires stands { Stands (P.StandsFor settings.now) self.old }
        requires published { self.old.pass.published ≡ at_hand self.old }
        requires kept { option_copied row ≡ kept_row self.old.pass.logs.plan (at_hand self.old) }
        ensures { (before : seen.Replica P.State) → HasOnlyLooked before self.old → IsTurn (P.StandsFor settings.now) (P.verdict_after settings.now) before self.new result }
    {
        let p = self.finished + 1;
        let own = self.is_own();
        let known = self.knows();
        match apply::<P>(settings, &mut self.state, p, row, own) {
            Ok(given) => {
                count(&mut self.counts, own, known, row.is_some());
                logs.finish(&mut self.pass, p);
                self.finished = p;
                self.asked = 0;
                turn_of(given)
            }
            Err(error) => {
                self.standing = Standing::OutOfMemory(error);
                Turn::OutOfMemory(error)
            }
        }
    }

    // The place of the next core to ask for the packet at hand, in the order of asking. The replica's own is passed over.
    #[inline]
    fn next_to_ask(&self) -> u32
        requires published { self.now.pass.published ≡ at_hand self.now }
        requires lost { final_entry self.now.pass.logs.plan self.now.pass.core (at_hand self.now) ≡ None }
        ensures from { self.now.lost_to ≤ result }
        ensures to { result ≤ self.now.pass.logs.plan.cores }
        ensures lost { (i : ℕ) → i < result → final_entry self.now.pass.logs.plan (asked self.now.pass.logs.plan (at_hand self.now) i) (at_hand self.now) ≡ None }
        ensures other { result < self.now.pass.logs.plan.cores → asked self.now.pass.logs.plan (at_hand self.now) result ≢ self.now.pass.core }
    {
        let p = self.finished + 1;
        let own = self.pass.core();
        for place in self.asked..self.cores {
            if core_of(p + place, self.cores) != own {
                return place;
            }
        }
        self.cores
    }

    // Asks the next core for the packet at hand, which is lost to this one.
    #[inline]
    fn ask(&mut self, settings: &P::Settings, logs: &Logs) -> Turn
        requires of_these { self.old.pass.logs ≡ logs.now }
        requires running { self.old.standing ≡ standing.Running }
        requires stands { Stands (P.StandsFor settings.now) self.old }
        requires published { self.old.pass.published ≡ at_hand self.old }
        requires lost { final_entry self.old.pass.logs.plan self.old.pass.core (at_hand self.old) ≡ None }
        ensures { IsTurn (P.StandsFor settings.now) (P.verdict_after settings.now) self.old self.new result }
    {
        let p = self.finished + 1;
        let place = self.next_to_ask();
        if place >= self.cores {
            return self.finish(settings, logs, None);
        }
        let core = core_of(p + place, self.cores);
        match logs.look(&mut self.pass, core, p) {
            Look::Row(row) => self.finish(settings, logs, Some(&row)),
            Look::Lost => {
                self.asked = place + 1;
                Turn::Moved
            }
            Look::NotYet { tag } => self.wait(logs, Pending::NotYet { core, tag }),
        }
    }

    // A turn of a replica that is running.
    #[inline]
    fn go_on<R: Wait>(&mut self, rt: &R, settings: &P::Settings, logs: &Logs) -> Turn
        requires of_these { self.old.pass.logs ≡ logs.now }
        requires running { self.old.standing ≡ standing.Running }
        requires stands { Stands (P.StandsFor settings.now) self.old }
        ensures { IsTurn (P.StandsFor settings.now) (P.verdict_after settings.now) self.old self.new result }
    {
        if self.finished == self.heard.decided() {
            return self.take(rt, logs);
        }
        if self.pass.published() == self.finished {
            return self.publish(logs);
        }
        match self.row {
            Some(row) => self.finish(settings, logs, Some(&row)),
            None => self.ask(settings, logs),
        }
    }

    /// One turn: takes a message, publishes a packet, asks a core for the packet at hand, or finishes it. It may wait only
    /// for the queue of its lane to give what was sent. Only where there is nothing to do it looks at the halt word, which
    /// it never sets.
    #[inline]
    pub fn turn<R: Wait>(&mut self, rt: &R, settings: &P::Settings, logs: &Logs) -> Turn
        requires stands { Stands (P.StandsFor settings.now) self.old }
        requires of_these { self.old.pass.logs ≡ logs.now }
        ensures stands { Stands (P.StandsFor settings.now) self.new }
        ensures verdict { GivesVerdict (P.verdict_after settings.now) self.old self.new result }
        ensures tells { TurnTells self.old self.new result }
        ensures replica { IsReplica self.new }
    {
        match self.standing {
            Standing::Running => {
                let answer = self.go_on(rt, settings, logs);
                // What is true of every replica holds again.
                let _pass = self.pass();
                answer
            }
            Standing::Ended => Turn::Ended,
            Standing::Halted => Turn::Halted,
            Standing::OutOfMemory(error) => Turn::OutOfMemory(error),
        }
    }
}
