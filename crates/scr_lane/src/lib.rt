//! Lanes: what one thread sends to another, in order, through a bounded queue.
//!
//! **What it does.** [`Lane::make`] makes the two ends of the lane of a core. A [`SendEnd`] pushes the packets of its
//! messages, and a [`ReceiveEnd`] pops them, in another thread. Beside the queue stand two words: how many packets were
//! sent, which the sender stores after each push, and how many were taken, which the receiver stores after each pop.
//! [`Sender::has_room`] tells whether there is room by the last look at the taken word, and looks again where that shows
//! none; [`Sender::push`] then tries until the queue takes the packet. [`Receiver::has_item`] and [`Receiver::pop`] do the
//! same with the sent word. Between two tries an end pauses, first for moments, then by giving its processor up. Both ends
//! are generic in what they carry: [`make_ends`] makes a [`Sender`] and a [`Receiver`] for any [`Course`].
//!
//! **What a contract sees.** An end as which lane it is of, what that is about (for a [`SendEnd`] the plan and the core), the
//! capacity, how many items it has sent or taken, and its looks: each load of the other end's word with what it found, in
//! order.
//!
//! **What is proved.** Both ends are of one lane. Whatever the threads do, what was taken is a front of what was sent, and
//! that a front of the lane, each message whole and once. There is no room only where this call's own look found as many
//! packets under way as there may be, and no item only where its own look found no packet more than were taken; these calls
//! can't wait. A push or a pop is made only where the newest look shows room or an item. An end keeps nothing of the plan.
//! Both may go to other threads, and only making them takes memory.
//!
//! **What is only tested.** That a whole lane passes from one thread to another, and that a look notes the number that
//! stands in the word at that time, not an older one.
//!
//! **Limits.** A push or a pop may wait: no proof says that it returns, or how long that takes. A lane of packets has room
//! for 1,024 of them at most.
#![tactic(auto)]

mod counts;
mod course;
mod ends;
mod lane;
mod receiver;
mod sender;
#[cfg(test)]
mod tests;
mod view;

pub use course::Course;
pub use ends::make_ends;
pub use lane::{Lane, LaneOf, Messages, ReceiveEnd, SendEnd};
pub use receiver::Receiver;
pub use sender::Sender;
