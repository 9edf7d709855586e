ghost use Rattle.std.specs.Prelude.{◌≡◌, List};
ghost use Rattle.scr_chain.specs.Arrivals.{Arrival, HasWidths, own_row, verdict_at, verdict_on, count_at, count_on};
ghost use Rattle.scr_chain.specs.Chains.{chained, chained_verdict, chained_count};
ghost use Rattle.scr_chain.specs.Five.{Five, rules_of};

use scr_frame::Parsed;

/// The fields of every frame fit into their places of a row.
pub fn any_frame_fits(parsed: Parsed)
    ensures { HasWidths parsed }
{}

/// In a chain of any two of the five programs both answer at the chain's rows as at rows of their own: what the other
/// program puts into a row doesn't matter. So a chain is said by what its programs say of the frames.
pub fn each_answers_as_alone()
    // The first and the second program, over any frames.
    ensures first { (first second : Five) (before : List Arrival) (arrival : Arrival) →
        verdict_at (own_row (chained (rules_of first) (rules_of second))) (rules_of first) before arrival ≡ verdict_on (rules_of first) before arrival }
    ensures second { (first second : Five) (before : List Arrival) (arrival : Arrival) →
        verdict_at (own_row (chained (rules_of first) (rules_of second))) (rules_of second) before arrival ≡ verdict_on (rules_of second) before arrival }
    ensures first_flows { (first second : Five) (arrivals : List Arrival) →
        count_at (own_row (chained (rules_of first) (rules_of second))) (rules_of first) arrivals ≡ count_on (rules_of first) arrivals }
    ensures second_flows { (first second : Five) (arrivals : List Arrival) →
        count_at (own_row (chained (rules_of first) (rules_of second))) (rules_of second) arrivals ≡ count_on (rules_of second) arrivals }

    // So the chain, by both of them over frames.
    ensures chain { (first second : Five) (before : List Arrival) (arrival : Arrival) →
        verdict_on (chained (rules_of first) (rules_of second)) before arrival
        ≡ chained_verdict (rules_of first).names (verdict_on (rules_of first)) (rules_of second).names (verdict_on (rules_of second)) before arrival }
    ensures chain_flows { (first second : Five) (arrivals : List Arrival) →
        count_on (chained (rules_of first) (rules_of second)) arrivals
        ≡ chained_count (rules_of first).names (verdict_on (rules_of first)) (count_on (rules_of first)) (count_on (rules_of second)) arrivals }
{}
