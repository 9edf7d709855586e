use crate::error::AnyError;

/// How far a reader has come.
#[derive(Clone, Copy, Debug, PartialEq, Eq)]
pub enum Progress {
    /// More may follow.
    Reading,
    /// The end was met behind a whole block.
    Ended,
    /// This error was answered, and is answered again.
    Refused(AnyError),
}
