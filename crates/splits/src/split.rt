// The splits that are tried, one after the other.
ghost use Rattle.std.specs.Prelude.{◌≡◌, leb};
ghost use Rattle.splits.specs.Split.{split};
ghost use Rattle.splits.specs.Inner.Next.{next_split};

// A node at a frame of the window whose fault frame is c.
#[derive(Clone, Copy, Debug, PartialEq, Eq)]
pub struct Split {
    pub c: u8,
    pub frame: u8,
    pub node: u16,
}

// The first split of a window, which is named by its c.
pub fn first_of(c: u8) -> Split
    ensures { result ≡ split c 0 0 }
{
    Split {
        c,
        frame: 0,
        node: 0,
    }
}

impl Split {
    // Whether the split is one of the windows up to that of b.
    pub fn is_within(self, b: u8) -> bool
        ensures { result ≡ leb self.c b }
    {
        self.c <= b
    }

    // The following split, in a circuit of n nodes, where a window has f frames behind its fault
    // frame: by c, then frame, then node. By value, as document 01 names this form: a split of a window above
    // 255 frames stays, since its bytes have no following one.
    #[tactic(auto, unfolding(crate::specs::Inner::Next::next_split))]
    pub fn next(self, n: u16, f: u8) -> Split
        ensures { result ≡ next_split n f self }
    {
        let Split { c, frame, node } = self;
        let last = c.saturating_add(f);
        if last == u8::MAX {
            return self;
        }
        if node.saturating_add(1) < n {
            return Split {
                node: node + 1,
                ..self
            };
        }
        if frame < last {
            return Split {
                frame: frame + 1,
                node: 0,
                ..self
            };
        }
        first_of(c + 1)
    }
}
