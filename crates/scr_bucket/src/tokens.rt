/// The bucket of a flow.
#[derive(Clone, Copy, Debug, PartialEq, Eq)]
pub struct Tokens {
    /// What it holds, in millionths of a token.
    pub held: u64,
    /// The greatest time of the flow's packets, in microseconds.
    pub time: u64,
}
