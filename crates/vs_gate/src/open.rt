use crate::gate::Gate;

/// The gate that lets everyone through at once.
#[derive(Clone, Copy, Default)]
pub struct OpenGate;

impl Gate for OpenGate {
    fn pass(&self, _who: u32, _call: u32, _stage: u8) {}
}
