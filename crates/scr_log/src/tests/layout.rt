//! Where the words of the logs of two cores with four slots stand.
ghost use Rattle.std.specs.Prelude.{◌≡◌};
ghost use Rattle.scr_log.specs.Layout.{word_count, place, finished_offset, claim_place, halt_place};

#[tactic(auto, unfolding(crate::specs::Layout::place, crate::specs::Layout::finished_offset, crate::specs::Layout::claim_place, crate::specs::Layout::halt_place))]
pub fn of_two_cores()
    ensures all { word_count 2 4 ≡ 68 }
    ensures finished_of_zero { place 4 0 (finished_offset 4) ≡ 32 }
    ensures slots_of_one { place 4 1 0 ≡ 33 }
    ensures finished_of_one { place 4 1 (finished_offset 4) ≡ 65 }
    ensures claim { claim_place 2 4 ≡ 66 }
    ensures halt { halt_place 2 4 ≡ 67 }
{}
