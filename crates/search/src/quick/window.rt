// The window that is searched, and where the values of its frames stand.
use circuit::Fault;

// The window of c for a fault in a circuit of n nodes: it has w frames. It knows no fact of them, as the
// checker's and the sweeps' do, since the quick search promises nothing.
#[derive(Clone, Copy)]
pub(crate) struct Window {
    pub(crate) n: u16,
    pub(crate) fault: Fault,
    pub(crate) c: u8,
    pub(crate) w: u8,
}

impl Window {
    // Where the values of a frame begin.
    pub(crate) fn row_of(self, frame: u8) -> u32 {
        frame as u32 * self.n as u32
    }

    // Where the value of a node at a frame stands.
    pub(crate) fn place_of(self, node: u16, frame: u8) -> usize {
        knowledge::place_of(self.n, node, frame as u16)
    }

    // The node and the frame of a place.
    pub(crate) fn at(self, place: u16) -> Option<(u16, u8)> {
        let frame = place.checked_div(self.n)?;
        let node = place.checked_rem(self.n)?;
        Some((node, u8::try_from(frame).ok()?))
    }

    // The frame behind one, where the window has one.
    pub(crate) fn frame_after(self, frame: u8) -> Option<u8> {
        frame.checked_add(1).filter(|next| *next < self.w)
    }
}
