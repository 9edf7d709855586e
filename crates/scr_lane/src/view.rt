use std::collections::LinkedList;

/// Whose view it is: of both ends before they are parted, or of one of them.
pub enum Role {
    Both,
    Sender,
    Receiver,
}

/// What the rule of the queue sees of a pass. No value of it is made.
pub struct Hand<A> {
    pub role: Role,
    pub about: A,
    pub capacity: u64,
    pub count: u64,
}

/// What the rule of the two words sees of a seat. No value of it is made.
pub struct Tally {
    pub role: Role,
    pub stored: u64,
    pub looks: LinkedList<u64>,
}
