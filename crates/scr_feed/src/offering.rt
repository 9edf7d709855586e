ghost use Rattle.std.specs.Prelude.{◌≡◌, OnOk, OnErr, IfErr};
ghost use Rattle.scr_lane.specs.Ends.{FoundNoRoom};
ghost use Rattle.scr_lane.specs.Messages.{SpellsMessage};
ghost use Rattle.scr_feed.specs.Steps.{HasSent};

use scr_lane::SendEnd;
use scr_wire::Packet;
use std::sync::Wait;

/// Sends the lane's next packet, or gives it back where the lane is full.
pub fn offer<R: Wait>(rt: &R, end: &mut SendEnd, packet: Packet) -> Result<(), Packet>
    requires { SpellsMessage end.old.about end.old.count packet }
    ensures sent { OnOk result (HasSent end.old end.new) }
    ensures full { OnErr result (FoundNoRoom end.old end.new) }
    ensures back { IfErr result (λ back. back ≡ packet) }
{
    if !end.has_room() {
        return Err(packet);
    }
    end.push(rt, packet);
    Ok(())
}
