// A search under way: what is asked, and what it is looked for in.
ghost use Rattle.search.specs.Inner.Asked.{OfWindow, StayOpen};

use crate::question::Question;
use crate::quick::Scratch;

// The question, and the two work slices of the size of its window: the one has what is known in a window, the
// other what the trace needs besides. Then the notes of splits that stay open, and the quick search's room.
// Methods that alter it say that the question stays: as far as its type says, one may alter all of the struct.
#[derive(Drop)]
pub(crate) struct Search<'a> {
    pub(crate) question: Question<'a>,
    pub(crate) known: &'a mut [u8],
    pub(crate) spare: &'a mut [u8],
    pub(crate) noted: &'a mut [u8],
    pub(crate) scratch: &'a mut Scratch,
    ghost of_window: { OfWindow question question.b known.now spare.now },
    ghost stay_open: { StayOpen question noted.now },
}
