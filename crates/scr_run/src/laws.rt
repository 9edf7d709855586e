ghost use Rattle.std.specs.Prelude.{◌≡◌, [], ℕ, Bool, List, All, Ok, true};
ghost use Rattle.scr_pcap.specs.Records.{Record};
ghost use Rattle.scr_plan.specs.Link.{empty_link};
ghost use Rattle.scr_plan.specs.Plan.{Plan, IsPlan};
ghost use Rattle.scr_report.specs.Outcome.{report_text};
ghost use Rattle.scr_stream.specs.Reading.{IsReading};
ghost use Rattle.scr_stream.specs.Streamed.{streamed};
ghost use Rattle.scr_wire.specs.Spelling.{IsRow};
ghost use Rattle.scr_words.specs.declared.settings.Shape.{Shape};
ghost use Rattle.scr_run.specs.Rules.{Rules};
ghost use Rattle.scr_run.specs.RunReport.{outcome_of, plain_text, plan_text, rows_of, shaped};

use scr_replica::none_dropped;

/// Where the link does nothing, the report of a run is the plain one but for the lines of its cores: the same lines of
/// verdicts, of frames and flows, and the same totals, for every number of cores and every history.
pub fn plain_over_an_empty_link()
    ensures { (rules : Rules) (shape : Shape) (records : List Record) → shape.link ≡ empty_link
        → report_text rules.names (record (outcome_of rules (shaped shape (rows_of rules.row_of records))) { cores = [] }) true ≡ plain_text rules records }
{
    none_dropped();
}

/// What is sprayed of a plan, whose rows have words of 64 bits as all rows of a run have, is read as a plan with the same
/// report, with the lines of the verdicts or without. The plan of a run is that of the rows of its capture and of its shape,
/// so a replay writes what the run writes.
pub fn replayed_is_run()
    ensures { (rules : Rules) (code : ℕ) (plan : Plan) → IsPlan plan → All IsRow plan.rows
        → (read : Plan) × IsReading code (streamed code plan) (Ok read)
        × ((with_verdicts : Bool) → plan_text rules with_verdicts read ≡ plan_text rules with_verdicts plan) }
{}
