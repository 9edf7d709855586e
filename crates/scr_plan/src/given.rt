use scr_base::Verdict;

/// The verdict that was given at a frame.
#[derive(Clone, Copy, Debug, PartialEq, Eq)]
pub struct Given {
    /// The number of the frame, from 1.
    pub number: u32,
    /// What the program says of its packet.
    pub verdict: Verdict,
}
