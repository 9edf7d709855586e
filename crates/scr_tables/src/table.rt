ghost use Rattle.std.specs.Prelude.{◌≡◌, ◌<◌, ◌==◌, ℕ, List, All, true, false, Some, MatchResult, MatchOption};
ghost use Rattle.std.specs.List.{list_any};
ghost use Rattle.scr_tables.specs.Rules.{IsRule, IsTable, first_rule, can_be_held, has_any, lacks_any};
ghost use Rattle.scr_tables.specs.Spelling.{SpellsTable, RefusedBy};

use crate::index::{STATES, StateRules, index};
use crate::reading::{TableCause, TableError, read_rules};
use crate::rule::Rule;
use scr_program::Fields;
use std::alloc::Global;
use std::marker::Model;

/// The rules of a program, in the order in which they are tried.
///
/// In each state that a source can be in, some rule holds of any packet.
#[derive(Debug, Drop)]
pub struct Table {
    rules: Vec<Rule>,
    by_state: Vec<StateRules>,
}

impl Model for Table {
    ghost use Rattle.std.specs.Prelude.{List};
    ghost use Rattle.scr_tables.specs.declared.rule.Rule.{Rule};

    ghost Value = { List Rule };

    ghost use Rattle.scr_tables.specs.Rules.{IsTable};
    ghost use Rattle.scr_tables.specs.Index.{IsIndex};

    ghost view = { λ table. table.rules.items };

    ghost invariant = { λ table. IsTable table.rules.items × IsIndex table.rules.items table.by_state.items };
}

impl Table {
    /// The table that a text spells: rules parted by commas, each `state:pattern>next/verdict`.
    ///
    /// States are 0 to 15, the pattern is `*` (any packet), `t` (TCP), `u` (UDP), `d` with a port (TCP or UDP to it) or `f`
    /// with a number up to 255 (TCP with all of these flags), and the verdict `P` (pass) or `D` (drop). Numbers are decimal,
    /// of any length and with any zeros in front.
    pub fn read(alloc: Global, text: &[u8]) -> Result<Self, TableError>
        ensures { MatchResult result (λ table. SpellsTable text.now table) (λ error. RefusedBy text.now error) }
    {
        let rules = read_rules(alloc, text)?;
        if let Some(state) = first_lacking(&rules) {
            return Err(TableError::Refused {
                cause: TableCause::NoAny,
                place: u64::from(state),
            });
        }
        let by_state = index(alloc, &rules)?;
        Ok(Table { rules, by_state })
    }

    /// Its rules, in their order.
    pub fn rules(&self) -> &[Rule]
        ensures rules { result.now ≡ self.now }
        ensures valid { IsTable self.now }
    {
        &self.rules
    }

    /// The first rule for a source in this state and a packet with these fields, where the state has one for any packet.
    #[inline(always)]
    pub(crate) fn rule_for(&self, state: u8, packet: &Fields) -> Rule
        ensures { has_any self.now state ≡ true → first_rule self.now state packet.now ≡ Some result }
    {
        // The states of a table are below 16 anyway.
        let rules = &self.by_state[usize::from(state % STATES)];
        rules.rule_for(packet)
    }
}

// The least state that a run can hold and that has no rule for any packet.
fn first_lacking(rules: &[Rule]) -> Option<u8>
    requires { All IsRule rules.now }
    ensures { MatchOption result ((state : ℕ) → lacks_any rules.now state ≡ false)
        (λ least. (lacks_any rules.now least ≡ true) × ((state : ℕ) → state < least → lacks_any rules.now state ≡ false)) }
{
    for state in 0..STATES {
        if lacks_any(rules, state) {
            return Some(state);
        }
    }
    None
}

fn lacks_any(rules: &[Rule], state: u8) -> bool
    ensures { result ≡ lacks_any rules.now state }
{
    can_be_held(rules, state) && !has_any(rules, state)
}

fn can_be_held(rules: &[Rule], state: u8) -> bool
    ensures { result ≡ can_be_held rules.now state }
{
    state == 0 || is_next(rules, state)
}

fn is_next(rules: &[Rule], state: u8) -> bool
    ensures { result ≡ list_any (λ rule. rule.next == state) rules.now }
{
    rules.iter().any(|rule| rule.next == state)
}

fn has_any(rules: &[Rule], state: u8) -> bool
    ensures { result ≡ has_any rules.now state }
{
    rules.iter().any(|rule| rule.is_any_of(state))
}
