ghost use Rattle.std.specs.Prelude.{◌≡◌, ℕ, List, Result};
ghost use Rattle.scr_pcap.specs.Records.{Record};
ghost use Rattle.scr_pcapng.specs.Reading.{IsReading};
ghost use Rattle.scr_pcapng.specs.declared.error.AnyError.{AnyError};

/// Any bytes have a reading, in one of the two formats: records, or a fault.
pub fn some_reading()
    ensures { (bytes : List ℕ) → (reading : Result (List Record) AnyError) × IsReading bytes reading }
{}

/// Bytes have one reading: their records, or their first fault.
pub fn one_reading()
    ensures { (bytes : List ℕ) (one other : Result (List Record) AnyError) → IsReading bytes one → IsReading bytes other → one ≡ other }
{}
