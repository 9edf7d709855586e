use std::alloc::Global;

/// What a run goes by besides its words and its streams: what starts its threads, where memory comes from, and the gate of
/// its cores.
#[derive(Drop)]
pub(crate) struct Host<'a, R, G> {
    pub(crate) rt: &'a R,
    pub(crate) alloc: Global,
    pub(crate) gate: &'a G,
}
