//! What the driver passes.
use es_io::{Gate, Spot};

/// What the driver passes before each command. It may hold the driver for a while, and promises nothing. It is asked by the driver's
/// thread alone, so that it may be less than a [`Gate`], which all threads share.
pub trait LineGate {
    /// The driver is before the command of this number.
    fn pass(&self, command: u32);
}

/// A gate as the driver passes it.
#[derive(Drop)]
pub struct DriverGate<'g, G: Gate> {
    pub gate: &'g G,
}

impl<'g, G: Gate> LineGate for DriverGate<'g, G> {
    fn pass(&self, command: u32) {
        self.gate.pass(0, Spot::Line(command));
    }
}
