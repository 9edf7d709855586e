ghost use Rattle.std.specs.Prelude.{◌≡◌, ◌+◌, ◌++◌, ◌<◌, ◌≤◌, ℕ, List, All, length, map, OnOk, IfOk, slice_index_or};
ghost use Rattle.std.specs.List.{flat_map};
ghost use Rattle.std.specs.Option.{option_to_list};
ghost use Rattle.scr_plan.specs.Plan.{frame_count};
ghost use Rattle.scr_plan.specs.Delays.{greatest_delay};
ghost use Rattle.scr_wire.specs.Spelling.{Spells, spelling};
ghost use Rattle.scr_wire.specs.declared.message.Message.{Message};
ghost use Rattle.scr_sequencer.specs.Answers.{Adds, AddsFrom, beacons_of, packets_to};
ghost use Rattle.scr_replica.specs.Told.{untold, Tells, AllFinal};
ghost use Rattle.scr_replica.specs.Awaiting.{AllAwait, AllTook};

use crate::listener::Listener;
use scr_base::OutOfMemory;
use scr_plan::RunPlan;
use scr_sequencer::{Arriving, Outgoing, Rest, Sequencer};
use scr_wire::{Message, Packet, decode, encode};
use std::alloc::Global;

// Cores that took nothing.
fn new_cores(alloc: Global, plan: &RunPlan) -> Result<Vec<Listener>, OutOfMemory>
    ensures { IfOk result (λ cores. AllTook plan.now 0 cores.items) }
{
    let mut cores = Vec::new(alloc);
    for _ in 0..plan.cores() {
        cores.push(Listener::new(alloc, plan.rows().len())?)?;
    }
    Ok(cores)
}

// Gives a packet to a core.
fn give(plan: &RunPlan, core: &mut Listener, packet: &Packet) -> Result<(), OutOfMemory>
    requires { (message : Message) × Spells message packet.now }
    ensures { (message : Message) → Spells message packet.now → OnOk result (Tells plan.now.history message core.old core.new) }
{
    match decode(packet.bytes()) {
        Ok(message) => core.take(&message, plan.history()),
        Err(_) => unreachable!(),
    }
}

// Gives a packet to every core.
fn give_all(plan: &RunPlan, cores: &mut [Listener], packet: &Packet) -> Result<(), OutOfMemory>
    requires { (message : Message) × Spells message packet.now }
    ensures { (message : Message) → Spells message packet.now → OnOk result ((core : ℕ) → core < length cores.old → Tells plan.now.history message (slice_index_or cores.old core untold) (slice_index_or cores.new core untold)) }
{
    for core in cores.iter_mut() {
        give(plan, core, packet)?;
    }
    Ok(())
}

// Gives the beacon to every core, where there is one.
fn give_beacon(
    alloc: Global,
    plan: &RunPlan,
    cores: &mut [Listener],
    beacon: Option<u32>,
) -> Result<(), OutOfMemory>
    ensures { (n : ℕ) (rest : ℕ → List (List ℕ)) → AllAwait plan.now n (λ core. map spelling (beacons_of beacon) ++ rest core) cores.old → OnOk result (AllAwait plan.now n rest cores.new) }
{
    match beacon {
        Some(number) => give_all(plan, cores, &encode(alloc, &Message::Beacon { number })?),
        None => Ok(()),
    }
}

// Gives a frame to its core, as often as it comes.
fn give_frame(plan: &RunPlan, cores: &mut [Listener], frame: &Arriving) -> Result<(), OutOfMemory>
    requires core { frame.now.core < plan.now.cores }
    requires awaited { (n : ℕ) × (rest : ℕ → List (List ℕ)) × AllAwait plan.now n (λ core. packets_to core frame.now ++ rest core) cores.old }
    ensures { (n : ℕ) (rest : ℕ → List (List ℕ)) → AllAwait plan.now n (λ core. packets_to core frame.now ++ rest core) cores.old → OnOk result (AllAwait plan.now n rest cores.new) }
{
    let core = &mut cores[frame.core as usize];
    give(plan, core, &frame.packet)?;
    match &frame.copy {
        Some(copy) => give(plan, core, copy),
        None => Ok(()),
    }
}

// Gives the frame of a step to its core, where it comes in its turn.
fn give_own(
    plan: &RunPlan,
    cores: &mut [Listener],
    own: &Option<Arriving>,
) -> Result<(), OutOfMemory>
    requires core { All (λ it. it.core < plan.now.cores) (option_to_list own.now) }
    requires awaited { (n : ℕ) × (rest : ℕ → List (List ℕ)) × AllAwait plan.now n (λ core. flat_map (packets_to core) (option_to_list own.now) ++ rest core) cores.old }
    ensures { (n : ℕ) (rest : ℕ → List (List ℕ)) → AllAwait plan.now n (λ core. flat_map (packets_to core) (option_to_list own.now) ++ rest core) cores.old → OnOk result (AllAwait plan.now n rest cores.new) }
{
    match own {
        Some(frame) => give_frame(plan, cores, frame),
        None => Ok(()),
    }
}

// Gives frames to their cores.
fn give_frames(
    plan: &RunPlan,
    cores: &mut [Listener],
    frames: &[Arriving],
) -> Result<(), OutOfMemory>
    requires core { All (λ it. it.core < plan.now.cores) frames.now }
    requires awaited { (n : ℕ) × AllAwait plan.now n (λ core. flat_map (packets_to core) frames.now) cores.old }
    ensures { (n : ℕ) → AllAwait plan.now n (λ core. flat_map (packets_to core) frames.now) cores.old → OnOk result (AllTook plan.now n cores.new) }
{
    for frame in frames {
        give_frame(plan, cores, frame)?;
    }
    Ok(())
}

// Gives the cores what a step adds to their lanes.
fn give_step(
    alloc: Global,
    plan: &RunPlan,
    cores: &mut [Listener],
    outgoing: &Outgoing,
) -> Result<(), OutOfMemory>
    requires { (n : ℕ) × (n < frame_count plan.now) × AllTook plan.now n cores.old × Adds plan.now (n + 1) outgoing.now }
    ensures { (n : ℕ) → n < frame_count plan.now → AllTook plan.now n cores.old → Adds plan.now (n + 1) outgoing.now → OnOk result (AllTook plan.now (n + 1) cores.new) }
{
    give_beacon(alloc, plan, cores, outgoing.beacon)?;
    give_own(plan, cores, &outgoing.own)?;
    give_frames(plan, cores, &outgoing.late)
}

// Gives the cores what the steps behind the last row add.
fn give_late(plan: &RunPlan, cores: &mut [Listener], rest: &mut Rest) -> Result<(), OutOfMemory>
    requires took { AllTook plan.now (frame_count plan.now) cores.old }
    requires steps { length rest.old.held ≡ greatest_delay }
    requires adds { AddsFrom plan.now (frame_count plan.now + 1) rest.old.held }
    ensures took { OnOk result (AllTook plan.now (frame_count plan.now + greatest_delay) cores.new) }
    ensures end { rest.new.end ≡ rest.old.end }
{
    while let Some(frames) = rest.step() {
        give_frames(plan, cores, &frames)?;
    }
    Ok(())
}

// Gives the cores the end.
fn give_end(
    alloc: Global,
    plan: &RunPlan,
    cores: &mut [Listener],
    number: u32,
) -> Result<(), OutOfMemory>
    requires { number ≡ frame_count plan.now }
    ensures { AllTook plan.now (frame_count plan.now + greatest_delay) cores.old → OnOk result (AllFinal plan.now cores.new) }
{
    give_all(plan, cores, &encode(alloc, &Message::End { number })?)
}

// Gives the cores their whole lanes.
fn fill(alloc: Global, plan: &RunPlan, cores: &mut [Listener]) -> Result<(), OutOfMemory>
    requires { AllTook plan.now 0 cores.old }
    ensures { OnOk result (AllFinal plan.now cores.new) }
{
    let fates = plan.fates(alloc)?;
    let mut sequencer = Sequencer::make(alloc, plan.cores(), plan.history())?;
    for (i, row) in plan.rows().iter().enumerate() {
        let outgoing = sequencer.next(*row, fates[i])?;
        give_step(alloc, plan, cores, &outgoing)?;
    }
    let mut rest = sequencer.finish();
    give_late(plan, cores, &mut rest)?;
    give_end(alloc, plan, cores, rest.end())
}

/// What each core ends up knowing by its lane.
pub(crate) fn filled(alloc: Global, plan: &RunPlan) -> Result<Vec<Listener>, OutOfMemory>
    ensures { IfOk result (λ cores. AllFinal plan.now cores.items) }
{
    let mut cores = new_cores(alloc, plan)?;
    fill(alloc, plan, &mut cores)?;
    Ok(cores)
}
