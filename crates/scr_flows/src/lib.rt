//! Flows in the order of their last use, each at a place that can be gone on from.
//!
//! **What it does.** A [`Flows`] keeps a key and an entry for each of the flows that were used last, so many at most. A key's
//! place is found by its hash, or, where it is the key of a likely place, by one comparison; at its place an entry is read,
//! and is written while the flow comes to the front. A new key takes the place of the flow that was used longest ago, where
//! there are as many as may be. Memory is taken for one flow more than that, and [`Flows::has_room`] tells whether it suffices
//! for one more key. It stands on the map of the crate `indexmap`, whose indices are the places. [`Order`] keeps
//! places in the order of their last use, as links by index.
//!
//! **What a contract sees.** The most flows that there may be, the flow at each place, the places with the most recently used
//! first, and how many more keys memory was taken for. `list_of` (specs/Flows.antt) is the list of flows in that order. An order is its bound and its places.
//!
//! **What is proved.** Each call leaves the list that its clause names, and a refused one leaves it as it was; a key that is a
//! flow's needs no memory, and no other one does where memory was taken before.
//!
//! **What is only tested.** That calls succeed where there is memory, and that places stay.
//!
//! **Limits.** The map hashes by a seed that is fixed and known: whoever picks the keys can make look-ups slow, and can't change
//! their answers.
#![tactic(auto)]

mod flows;
mod order;
#[cfg(test)]
mod tests;

pub use flows::Flows;
pub use order::Order;
