/// Why bytes are no message: the first of these tests that fails, in this order.
#[derive(Clone, Copy, Debug, PartialEq, Eq)]
pub enum WireError {
    /// There are fewer bytes than a header has.
    Short,
    /// They don't begin with the mark.
    Mark,
    /// The version is another one.
    Version,
    /// There is no such kind of message.
    Kind,
    /// The kind or the number of the message doesn't allow this count of rows.
    Count,
    /// There are fewer or more bytes than the rows take.
    Length,
}
