ghost use Rattle.std.specs.Prelude.{◌≡◌, ◌<◌, unwrap_or};
ghost use Rattle.std.proofs.Common.{lit<};
ghost use Rattle.scr_program.specs.Keys.{source_of};
ghost use Rattle.scr_program.specs.Kinds.{has_ports};
ghost use Rattle.scr_program.specs.Verdicts.{OTHER, pass_drop_other};
ghost use Rattle.scr_knock.specs.Rows.{fields_kept};
ghost use Rattle.scr_knock.specs.Step.{outcome, verdict_at};
ghost use Rattle.scr_knock.specs.declared.place.Place.TheVariants.{Start, First, Second, Open};

use crate::place::{Place, next_place};
use crate::settings::KnockSettings;
use scr_base::{OutOfMemory, Verdict};
use scr_program::{
    Address, DROP, Fields, FlowTable, Keyed, OTHER, PASS, PASS_DROP_OTHER, has_ports,
};

/// The door: it drops the packets of each source until that has knocked at three ports in turn, and passes them then.
#[derive(Clone, Copy, Debug, PartialEq, Eq)]
pub struct Knock;

impl Keyed for Knock {
    type Settings = KnockSettings;

    type Key = Address;

    /// How far a source has come.
    type Entry = Place;

    ghost is_looked_at = { has_ports };

    ghost fields_kept = { fields_kept };

    ghost key_of = { source_of };

    ghost outcome = { outcome };

    ghost other = { OTHER };

    ghost most = { λ settings. settings.flows };

    ghost names_given = { pass_drop_other };

    ghost outcome_is_named = { λ settings known fields. elim (unwrap_or known Start) as (λ place. (verdict_at place).0 < 3) [ Start ↦ lit< tt | First ↦ lit< tt | Second ↦ lit< tt | Open ↦ lit< tt ] };

    ghost other_is_named = { lit< tt };

    #[inline(always)]
    fn looks_at(kind: u16) -> bool {
        has_ports(kind)
    }

    #[inline(always)]
    fn kept(fields: &Fields) -> Fields {
        Fields {
            source: fields.source,
            destination: Address {
                family: fields.source.family,
                value: 0,
            },
            destination_port: fields.destination_port,
            kind: fields.kind,
            ..Fields::NONE
        }
    }

    #[inline(always)]
    fn key(fields: &Fields) -> Address {
        fields.source
    }

    #[inline(always)]
    fn enter(
        settings: &KnockSettings,
        table: &mut FlowTable<Address, Place>,
        source: &Address,
        fields: &Fields,
    ) -> Result<Verdict, OutOfMemory> {
        let port = fields.destination_port;
        let place = table.update(source, |known| {
            let place = known.unwrap_or(Place::Start);
            (next_place(settings, place, port), place)
        })?;
        Ok(verdict_at(place))
    }

    #[inline(always)]
    fn passed_over() -> Verdict {
        OTHER
    }

    fn most_flows(settings: &KnockSettings) -> u32 {
        settings.flows
    }

    fn verdicts() -> &'static [&'static str] {
        &PASS_DROP_OTHER
    }
}

// Only a source that had opened the door before this packet passes.
fn verdict_at(place: Place) -> Verdict
    ensures { result ≡ verdict_at place }
{
    match place {
        Place::Open => PASS,
        Place::Start | Place::First | Place::Second => DROP,
    }
}
