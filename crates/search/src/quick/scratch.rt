// What the search needs beside what it is lent.
use crate::quick::fan::Fan;
use crate::quick::trail::Trail;

// The fan-out lists of the circuit that is searched, and room for a trail.
#[derive(Drop)]
pub(crate) struct Scratch {
    pub(crate) fan: Fan,
    pub(crate) trail: Trail,
}

impl Scratch {
    // For no circuit yet.
    pub(crate) fn new() -> Scratch {
        Scratch {
            fan: Fan::new(),
            trail: Trail::new(),
        }
    }

    // For a circuit of n nodes. It is filled where it stands, since it is too large to be handed on.
    pub(crate) fn read(&mut self, netlist: &[u8], n: u16) {
        self.fan.enter_all(netlist, n);
    }
}
