ghost use Rattle.std.specs.Prelude.{◌≡◌, ◌≤◌, ℕ, List, Result};
ghost use Rattle.scr_pcap.specs.Records.{Record, RECORDS};
ghost use Rattle.scr_pcap.specs.Reading.{IsReading};
ghost use Rattle.scr_pcap.specs.State.{ReaderState, reach};
ghost use Rattle.scr_pcap.specs.declared.error.CaptureError.{CaptureError};

/// Any bytes have a reading: records, or a fault.
pub fn some_reading()
    ensures { (bytes : List ℕ) → (reading : Result (List Record) CaptureError) × IsReading bytes reading }
{}

/// Bytes have one reading: their records, or their first fault.
pub fn one_reading()
    ensures { (bytes : List ℕ) (one other : Result (List Record) CaptureError) → IsReading bytes one → IsReading bytes other → one ≡ other }
{}

/// All calls of a reader together take at most 262,160,000,025 bytes of its source.
pub fn most_bytes()
    ensures { (reader : ReaderState) → reader.taken ≤ RECORDS → reach reader ≤ 262160000025 }
{}
