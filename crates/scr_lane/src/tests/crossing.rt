//! The ends may go to other threads.
use crate::{ReceiveEnd, SendEnd};

fn crosses<T: Send>(_value: &T) {}

pub fn sends(end: &SendEnd) {
    crosses(end);
}

pub fn takes(end: &ReceiveEnd) {
    crosses(end);
}
