// What the search is asked, where it can be answered: the facts that every step of it rests on stand here
// once.
ghost use Rattle.std.specs.Prelude.{◌≡◌, true, ◌*◌, ◌+◌, ◌≤◌};
ghost use Rattle.circuit.specs.Fault.{fault_exists};
ghost use Rattle.netlist.specs.Netlist.{net_of, pin_count, reading, sound};
ghost use Rattle.knowledge.specs.Window.{most_frames};

use crate::quick::Window;
use circuit::Fault;

// Which split closes first for a fault that exists in a sound netlist of n nodes, with c up to b, where f
// frames lie behind the fault frame.
#[derive(Clone, Copy)]
pub(crate) struct Question<'a> {
    pub(crate) netlist: &'a [u8],
    pub(crate) n: u16,
    pub(crate) fault: Fault,
    pub(crate) b: u8,
    pub(crate) f: u8,
    ghost sound_netlist: { reading netlist.now ≡ sound n (pin_count netlist.now) },
    ghost fault_there: { fault_exists (net_of netlist.now) fault ≡ true },
    ghost frames_few: { b + f + 1 ≤ most_frames },
}

// That c is at most b is asked by each method that takes a c: it is a fact of the c that is passed, not of the
// question. So is `Asked`, which methods of `Search` ask: it is a fact of the split.
impl Question<'_> {
    // The frames of the window of c. Not by `frames_of`: the question knows that they are not too many.
    pub(crate) fn frames(&self, c: u8) -> u8
        requires { c ≤ self.now.b }
        ensures { result ≡ c + self.now.f + 1 }
    {
        c + self.f + 1
    }

    // The places of the window of c: n for each frame.
    pub(crate) fn places(&self, c: u8) -> usize
        requires { c ≤ self.now.b }
        ensures { result ≡ self.now.n * (c + self.now.f + 1) }
    {
        self.n as usize * self.frames(c) as usize
    }

    // The window of c.
    pub(crate) fn window(&self, c: u8) -> Window
        requires { c ≤ self.now.b }
    {
        Window {
            n: self.n,
            fault: self.fault,
            c,
            w: self.frames(c),
        }
    }
}
