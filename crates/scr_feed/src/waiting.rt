ghost use Rattle.std.specs.Prelude.{◌≡◌, ◌∷◌, ◌++◌, [], None, IfSome, IfNone};
ghost use Rattle.std.specs.Option.{option_to_list};
ghost use Rattle.scr_feed.specs.Left.{second};

use scr_sequencer::Arriving;
use scr_wire::Packet;

/// The first of several frames, one of which stands in front of the others.
pub fn take_first(front: &mut Option<Arriving>, others: &mut Vec<Arriving>) -> Option<Arriving>
    ensures some { IfSome result (λ it. option_to_list front.old ++ others.old.items ≡ it ∷ others.new.items) }
    ensures none { IfNone result ((option_to_list front.old ++ others.old.items ≡ []) × (others.new.items ≡ [])) }
    ensures front { front.new ≡ None }
{
    match front.take() {
        Some(frame) => Some(frame),
        None if others.is_empty() => None,
        None => Some(others.remove(0)),
    }
}

/// What is left of a frame for this core once its packet was sent: its copy, where it comes twice.
pub fn second(core: u32, copy: Option<Packet>) -> Option<Arriving>
    ensures { result ≡ second core copy }
{
    match copy {
        Some(packet) => Some(Arriving {
            core,
            packet,
            copy: None,
        }),
        None => None,
    }
}
