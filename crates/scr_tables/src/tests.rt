//! Texts with the rules that they spell or the cause of their refusal, and packets followed through tables by hand.

mod reading;
mod running;
