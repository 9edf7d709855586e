ghost use Rattle.std.specs.Prelude.{◌≡◌, ◌<◌, ◌≤◌, [], ◌∷◌, ◌++◌, drop, length, map, slice_index_or, IfOk, OnErr, OnOk};
ghost use Rattle.scr_sequencer.specs.Sequence.{put, in_turn, held_with};

use crate::outgoing::Arriving;
use circular_buffer::HeapCircularBuffer;
use scr_base::OutOfMemory;
use std::alloc::Global;

/// The frames that come later, by the step at which they come, from the next one on.
pub type Held = HeapCircularBuffer<Vec<Arriving>>;

// Puts a frame behind those that are held for a step.
fn hold(held: &mut Held, steps: u32, frame: Arriving) -> Result<(), OutOfMemory>
    requires { steps < length held.old.items }
    ensures ok { OnOk result (map (λ frames. frames.items) held.new.items ≡ put (map (λ frames. frames.items) held.old.items) steps frame) }
    ensures err { OnErr result (map (λ frames. frames.items) held.new.items ≡ map (λ frames. frames.items) held.old.items) }
    ensures count { length held.new.items ≡ length held.old.items }
    ensures capacity { held.new.capacity ≡ held.old.capacity }
{
    match held.get_mut(steps as usize) {
        Some(frames) => Ok(frames.push(frame)?),
        None => unreachable!(),
    }
}

/// The frame, where there is one that comes in its turn. A later one is held.
pub fn hold_late(
    held: &mut Held,
    delay: u32,
    frame: Option<Arriving>,
) -> Result<Option<Arriving>, OutOfMemory>
    requires { delay < length held.old.items }
    ensures own { IfOk result (λ own. own ≡ in_turn delay frame) }
    ensures ok { OnOk result (map (λ frames. frames.items) held.new.items ≡ held_with (map (λ frames. frames.items) held.old.items) delay frame) }
    ensures err { OnErr result (map (λ frames. frames.items) held.new.items ≡ map (λ frames. frames.items) held.old.items) }
    ensures count { length held.new.items ≡ length held.old.items }
    ensures capacity { held.new.capacity ≡ held.old.capacity }
{
    match frame {
        Some(frame) if delay > 0 => {
            hold(held, delay, frame)?;
            Ok(None)
        }
        frame => Ok(frame),
    }
}

/// The frames of the next step. Behind the others there is room for those of one step more.
pub fn take_due(alloc: Global, held: &mut Held) -> Vec<Arriving>
    requires some { 1 ≤ held.old.capacity }
    requires full { length held.old.items ≡ held.old.capacity }
    ensures due { result.items ≡ slice_index_or (map (λ frames. frames.items) held.old.items) 0 [] }
    ensures others { map (λ frames. frames.items) held.new.items ≡ drop 1 (map (λ frames. frames.items) held.old.items) ++ [] ∷ [] }
    ensures count { length held.new.items ≡ length held.old.items }
    ensures capacity { held.new.capacity ≡ held.old.capacity }
{
    match held.push_back(Vec::new(alloc)) {
        Some(frames) => frames,
        None => unreachable!(),
    }
}
