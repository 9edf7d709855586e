use scr_log::CorePass;
use scr_replica::Gate;
use std::sync::Wait;

/// The gate that does nothing.
#[derive(Clone, Copy, Debug, PartialEq, Eq)]
pub struct OpenGate;

impl Gate for OpenGate {
    fn enter<R: Wait>(&self, _rt: &R, _pass: &CorePass) {}

    fn leave<R: Wait>(&self, _rt: &R, _pass: &CorePass) {}
}
