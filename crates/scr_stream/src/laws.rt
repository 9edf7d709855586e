ghost use Rattle.std.specs.Prelude.{◌≡◌, ℕ, ◌<◌, List, All, Result, Ok};
ghost use Rattle.scr_plan.specs.Plan.{Plan, IsPlan};
ghost use Rattle.scr_wire.specs.Spelling.{IsRow};
ghost use Rattle.scr_stream.specs.Streamed.{streamed};
ghost use Rattle.scr_stream.specs.Reading.{IsReading};
ghost use Rattle.scr_stream.specs.SameRun.{IsSameRun};
ghost use Rattle.scr_stream.specs.declared.error.StreamError.{StreamError};

/// Bytes that are bytes have some reading.
pub fn some_reading()
    ensures { (program : ℕ) (bytes : List ℕ) → All (λ b. b < 256) bytes → (r : Result Plan StreamError) × IsReading program bytes r }
{}

/// Bytes have one reading at most: the plan that they stand for, or the first test that fails.
pub fn one_reading()
    ensures { (program : ℕ) (bytes : List ℕ) (one other : Result Plan StreamError)
        → IsReading program bytes one → IsReading program bytes other → one ≡ other }
{}

/// What is written of a plan, whose rows have words of 64 bits, is read as a plan of the same run.
pub fn written_is_read()
    ensures { (program : ℕ) (plan : Plan) → IsPlan plan → All IsRow plan.rows
        → (read : Plan) × IsReading program (streamed program plan) (Ok read) × IsSameRun plan read }
{}
