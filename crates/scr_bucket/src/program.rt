ghost use Rattle.std.specs.Prelude.{◌≡◌, ◌-◌, nat_le};
ghost use Rattle.std.proofs.Common.{lit<};
ghost use Rattle.scr_program.proofs.Choices.{outcome-named};
ghost use Rattle.scr_program.specs.Keys.{five_tuple_of};
ghost use Rattle.scr_program.specs.Kinds.{is_packet};
ghost use Rattle.scr_program.specs.Verdicts.{PASS, DROP, OTHER, pass_drop_other};
ghost use Rattle.scr_bucket.specs.Rows.{fields_kept};
ghost use Rattle.scr_bucket.specs.Step.{TOKEN, filled, taken, outcome};

use crate::settings::BucketSettings;
use crate::tokens::Tokens;
use scr_base::{OutOfMemory, Verdict};
use scr_program::{
    DROP, Fields, FiveTuple, FlowTable, Keyed, OTHER, PASS, PASS_DROP_OTHER, is_packet,
};

/// The token bucket.
#[derive(Clone, Copy, Debug, PartialEq, Eq)]
pub struct Bucket;

/// One token, in millionths.
const TOKEN: u64 = 1_000_000;

impl Keyed for Bucket {
    type Settings = BucketSettings;

    type Key = FiveTuple;

    /// The bucket of a flow.
    type Entry = Tokens;

    ghost is_looked_at = { is_packet };

    ghost fields_kept = { fields_kept };

    ghost key_of = { five_tuple_of };

    ghost outcome = { outcome };

    ghost other = { OTHER };

    ghost most = { λ settings. settings.flows };

    ghost names_given = { pass_drop_other };

    ghost outcome_is_named = { λ settings known fields. let tokens = filled settings known fields.time in outcome-named 3 (nat_le TOKEN tokens.held) (record tokens { held = tokens.held - TOKEN }, PASS) (tokens, DROP) (lit< tt) (lit< tt) };

    ghost other_is_named = { lit< tt };

    #[inline(always)]
    fn looks_at(kind: u16) -> bool {
        is_packet(kind)
    }

    #[inline(always)]
    fn kept(fields: &Fields) -> Fields {
        Fields {
            flags: 0,
            length: 0,
            ..*fields
        }
    }

    #[inline(always)]
    fn key(fields: &Fields) -> FiveTuple {
        FiveTuple::of(fields)
    }

    #[inline(always)]
    fn enter(
        settings: &BucketSettings,
        table: &mut FlowTable<FiveTuple, Tokens>,
        flow: &FiveTuple,
        fields: &Fields,
    ) -> Result<Verdict, OutOfMemory> {
        let time = fields.time;
        table.update(flow, |known| taken(filled(settings, known, time)))
    }

    #[inline(always)]
    fn passed_over() -> Verdict {
        OTHER
    }

    fn most_flows(settings: &BucketSettings) -> u32 {
        settings.flows
    }

    fn verdicts() -> &'static [&'static str] {
        &PASS_DROP_OTHER
    }
}

// The bucket of a flow when a packet comes at this time.
fn filled(settings: &BucketSettings, known: Option<Tokens>, time: u64) -> Tokens
    ensures { result ≡ filled settings.now known time }
{
    let full = settings.burst * TOKEN;
    let Some(last) = known else {
        return Tokens { held: full, time };
    };
    let elapsed = time.saturating_sub(last.time);
    // Neither the product nor the sum needs more than 128 bits.
    let gained = u128::from(elapsed) * u128::from(settings.rate);
    let held = u128::from(full).min(u128::from(last.held) + gained);
    Tokens {
        held: held as u64,
        time: last.time.max(time),
    }
}

// Takes a token for a packet, which passes where there is one.
fn taken(tokens: Tokens) -> (Tokens, Verdict)
    ensures { result ≡ taken tokens }
{
    if TOKEN <= tokens.held {
        let held = tokens.held - TOKEN;
        (Tokens { held, ..tokens }, PASS)
    } else {
        (tokens, DROP)
    }
}
