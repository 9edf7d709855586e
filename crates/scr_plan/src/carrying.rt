ghost use Rattle.std.specs.Prelude.{◌≡◌, ◌≤◌};
ghost use Rattle.scr_plan.specs.Limits.{most_packets, most_cores, longest_history};
ghost use Rattle.scr_plan.specs.Plan.{Plan, HasParts};
ghost use Rattle.scr_plan.specs.Order.{core_number};
ghost use Rattle.scr_plan.specs.Kept.{first_carried, keeps};

use crate::link::Link;

/// The core of frame n among k cores, from 0.
pub fn core_of(n: u32, k: u32) -> u32
    requires a_frame { 1 ≤ n }
    requires a_core { 1 ≤ k }
    ensures { result ≡ core_number k n }
{
    (n - 1) % k
}

/// The first packet that frame n carries, at a history of h packets. The last one is n.
pub fn carried_from(n: u32, h: u32) -> u32
    requires { 1 ≤ n }
    ensures { result ≡ first_carried h n }
{
    n.saturating_sub(h).max(1)
}

/// Whether one of the t frames that is delivered carries packet p, among k cores and at a history of h packets.
pub fn kept(link: &Link, k: u32, p: u32, h: u32, t: u32) -> bool
    requires a_core { 1 ≤ k }
    requires few_cores { k ≤ most_cores }
    requires a_packet { 1 ≤ p }
    requires of_the_run { p ≤ t }
    requires short_history { h ≤ longest_history }
    requires few_frames { t ≤ most_packets }
    ensures { (plan : Plan) → HasParts plan link.now k t → plan.history ≡ h → result ≡ keeps plan p }
{
    let last = t.min(p + h);
    for frame in p..=last {
        if link.delivered(k, t, frame) {
            return true;
        }
    }
    false
}
