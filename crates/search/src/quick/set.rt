// The set of values that is worked on.
use crate::quick::fan::Fan;
use crate::quick::trail::Trail;
use crate::quick::window::Window;
use values::byte_at;

// Values of a window of a circuit: what is known of each place, by frame and node. The trail has the places
// that got their values last; noted says of which places an open set has been found.
#[derive(Drop)]
pub(crate) struct ValueSet<'c, 'a> {
    pub(crate) netlist: &'c [u8],
    pub(crate) window: Window,
    pub(crate) fan: &'c Fan,
    pub(crate) trail: &'a mut Trail,
    pub(crate) known: &'a mut [u8],
    pub(crate) noted: &'c [u8],
}

impl ValueSet<'_, '_> {
    // The value at a place.
    pub(crate) fn value_at(&self, place: usize) -> u8 {
        byte_at(self.known, place)
    }

    // Takes a value that is concluded.
    pub(crate) fn take_value(&mut self, place: usize, value: u8) {
        self.trail.take_value(place, value, self.known);
    }
}
