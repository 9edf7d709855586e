/// A piece of a line.
#[derive(Clone, Copy)]
pub enum Piece<'a> {
    /// Bytes as they stand.
    Text(&'a [u8]),
    /// A number, in decimal digits without zeros in front.
    Number(u64),
}
