// A window of frames, and whether it is one to try a split in.
ghost use Rattle.std.specs.Prelude.{◌≡◌, ◌*◌, ◌+◌, ◌<◌, ◌≤◌, true, false, ⊤, IfSome, MatchOption};
ghost use Rattle.netlist.specs.Netlist.{net_of};
ghost use Rattle.knowledge.specs.Window.{most_frames};
ghost use Rattle.sweeps.specs.Inner.Trials.{window_stands};

use circuit::Fault;
use splits::Split;

// A window of w frames, below whose frame c the fault is present, in a circuit of n nodes. The checker, the
// trace and the search have windows of their own: the checker's knows more, that the netlist is sound and the
// fault exists, and those of the trace and of the quick search know no fact.
#[derive(Clone, Copy)]
pub(crate) struct Window<'a> {
    pub netlist: &'a [u8],
    pub n: u16,
    pub fault: Fault,
    pub c: u8,
    pub w: u8,
    ghost counted: { n ≡ (net_of netlist.now).size },
}

impl<'a> Window<'a> {
    // The window of c with f frames behind its fault frame, where it is not too long.
    #[tactic(auto, unfolding(netlist::specs::Netlist::net_of))]
    pub(crate) fn of(netlist: &'a [u8], fault: Fault, c: u8, f: u8) -> Option<Window<'a>>
        ensures none_where_too_long { MatchOption result (most_frames < c + f + 1) (λ _. c + f + 1 ≤ most_frames) }
        ensures of_these { IfSome result (λ x. (x.netlist ≡ netlist.entry) × (x.fault ≡ fault) × (x.c ≡ c) × (x.w ≡ c + f + 1)) }
    {
        let w = knowledge::frames_of(c, f).ok()?;
        let n = netlist::node_count(netlist);
        Some(Window {
            netlist,
            n,
            fault,
            c,
            w,
        })
    }

    // How many places it has: one for each node at each frame.
    pub(crate) fn places(self) -> usize
        ensures counted { result ≡ self.entry.n * self.entry.w }
        ensures few { result < 16777216 }
    {
        self.n as usize * self.w as usize
    }
}

// A split that may be tried: the netlist is sound, the fault exists, and the split lies in its window, which is
// not too long and has f frames behind the fault frame.
#[derive(Clone, Copy)]
pub(crate) struct Trial<'a> {
    pub window: Window<'a>,
    pub f: u8,
    pub split: Split,
    ghost of_split: { (window.c ≡ split.c) × (window.w ≡ split.c + f + 1) },
    ghost stands: { window_stands window.netlist.now window.fault f split (window.n * window.w) ≡ true },
}

impl<'a> Trial<'a> {
    // The trial of a split, where it may be tried in so many places.
    #[tactic(auto, unfolding(crate::specs::Inner::Trials::window_stands))]
    pub(crate) fn of(
        netlist: &'a [u8],
        fault: Fault,
        f: u8,
        split: Split,
        places: usize,
    ) -> Option<Trial<'a>>
        ensures none_unless_it_stands { MatchOption result (window_stands netlist.now fault f split places ≡ false) (λ _. ⊤) }
        ensures of_these { IfSome result (λ t. (t.window.netlist ≡ netlist.entry) × (t.window.fault ≡ fault) × (t.f ≡ f) × (t.split ≡ split) × (t.window.n * t.window.w ≡ places)) }
    {
        let window = Window::of(netlist, fault, split.c, f)?;
        let stands = split.frame < window.w
            && split.node < window.n
            && window.places() == places
            && circuit::fault_exists(netlist, fault)
            && netlist::read(netlist).is_ok();
        if !stands {
            return None;
        }
        Some(Trial { window, f, split })
    }
}
