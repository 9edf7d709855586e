ghost use Rattle.std.specs.Prelude.{◌≡◌, ◌<◌, ◌≤◌, ℕ, None, true, false};
ghost use Rattle.std.specs.Bool.{Decides};
ghost use Rattle.std.specs.List.{flat_map, range_with_len};
ghost use Rattle.scr_plan.specs.Link.{empty_link};
ghost use Rattle.scr_plan.specs.Plan.{Plan, IsPlan, frame_count};
ghost use Rattle.scr_plan.specs.Order.{order, plain_at};
ghost use Rattle.scr_plan.specs.Delivered.{delivers};
ghost use Rattle.scr_plan.specs.Kept.{keeps, carries_to, IsKept, IsCarried};
ghost use Rattle.scr_plan.specs.FinalEntry.{final_entry};

/// A packet is kept exactly where some delivered frame carries it, and carried to a core exactly where some frame that is
/// delivered to that core does.
pub fn some_frame_carries()
    ensures kept { (plan : Plan) (p : ℕ) → Decides (keeps plan p) (IsKept plan p) }
    ensures carried { (plan : Plan) (core : ℕ) (p : ℕ) → Decides (carries_to plan core p) (IsCarried plan core p) }
{}

/// A packet is lost at every core exactly where no delivered frame carries it.
pub fn lost_to_all()
    ensures lost { (plan : Plan) (p : ℕ) → IsPlan plan → 1 ≤ p → p ≤ frame_count plan → ((core : ℕ) → core < plan.cores → final_entry plan core p ≡ None) → keeps plan p ≡ false }
    ensures unkept { (plan : Plan) (core : ℕ) (p : ℕ) → keeps plan p ≡ false → final_entry plan core p ≡ None }
{}

/// Where the link does nothing, the order of a lane goes number by number, each frame behind its beacon, every frame is
/// delivered and every packet kept.
pub fn empty_link_delivers_all()
    ensures order { (plan : Plan) (core : ℕ) → plan.link ≡ empty_link → order plan core ≡ flat_map (plain_at plan core) (range_with_len 1 (frame_count plan)) }
    ensures delivered { (plan : Plan) (n : ℕ) → plan.link ≡ empty_link → 1 ≤ n → n ≤ frame_count plan → delivers plan n ≡ true }
    ensures kept { (plan : Plan) (p : ℕ) → plan.link ≡ empty_link → 1 ≤ p → p ≤ frame_count plan → keeps plan p ≡ true }
{}
