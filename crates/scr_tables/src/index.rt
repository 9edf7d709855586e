ghost use Rattle.std.specs.Prelude.{◌≡◌, ℕ, true, false, IfOk, MatchOption};
ghost use Rattle.scr_tables.specs.Index.{AreRulesOf, IsIndex, rule_among};

use crate::rule::{Decision, Pattern, Rule};
use scr_base::OutOfMemory;
use scr_program::Fields;
use std::alloc::Global;

/// How many states there are.
pub(crate) const STATES: u8 = 16;

/// The rules of one state, up to the first one for any packet.
#[derive(Debug, Drop)]
pub(crate) struct StateRules {
    // Those before it, in their order.
    special: Vec<Rule>,
    // The one for any packet. A state that no source of a run is in may have none; then this rule is never used.
    otherwise: Rule,
}

/// A rule that is never used.
const UNUSED: Rule = Rule {
    state: 0,
    pattern: Pattern::Any,
    next: 0,
    verdict: Decision::Drop,
};

impl StateRules {
    /// The first of these rules that holds of a packet.
    #[inline(always)]
    pub(crate) fn rule_for(&self, packet: &Fields) -> Rule
        ensures { result ≡ rule_among self.now packet.now }
    {
        for rule in &self.special {
            if rule.pattern.holds(packet) {
                return *rule;
            }
        }
        self.otherwise
    }
}

/// The rules of each state, at its place.
pub(crate) fn index(alloc: Global, rules: &[Rule]) -> Result<Vec<StateRules>, OutOfMemory>
    ensures { IfOk result (λ by_state. IsIndex rules.now by_state.items) }
{
    let mut by_state = Vec::new(alloc);
    for state in 0..STATES {
        let found = rules_of(alloc, rules, state)?;
        by_state.push(found)?;
    }
    Ok(by_state)
}

// The rules of one state.
fn rules_of(alloc: Global, rules: &[Rule], state: u8) -> Result<StateRules, OutOfMemory>
    ensures { IfOk result (λ found. AreRulesOf rules.now state found) }
{
    let mut special = Vec::new(alloc);
    for rule in rules {
        if rule.state == state {
            if rule.pattern.is_any() {
                let otherwise = *rule;
                return Ok(StateRules { special, otherwise });
            }
            special.push(*rule)?;
        }
    }
    Ok(StateRules {
        special,
        otherwise: UNUSED,
    })
}
