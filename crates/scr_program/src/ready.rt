/// Which key memory was taken for.
#[derive(Clone, Copy, Debug, PartialEq, Eq)]
pub(crate) enum Ready {
    /// None.
    Nothing,
    /// That of the flow at the likely place.
    Likely,
    /// One that is no flow's, and stands apart.
    Apart,
}
