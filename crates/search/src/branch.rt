// Whether a split closes: looked up in the notes, or worked out.
ghost use Rattle.std.specs.Prelude.{false, true, ◌≡◌};
ghost use Rattle.search.specs.Inner.Asked.{Asked, closing};

use crate::search::Search;
use splits::Split;

impl Search<'_> {
    // Whether a split is noted as one that stays open for its c.
    fn is_noted(&self, split: Split) -> bool
        requires { Asked self.now.question split }
        ensures { result ≡ true → closing self.now.question split ≡ false }
    {
        let place = knowledge::place_of(self.question.n, split.node, split.frame as u16);
        splits::noted_c(values::byte_at(self.noted, place)) == Some(split.c)
    }

    // Whether both branches of a split close. First an open set is looked for that has one of its values;
    // where one is found, nothing is worked out. Where a branch stays open, so does each value that is known
    // in it, as a split, and they are noted.
    fn decide(&mut self, split: Split) -> bool
        requires { Asked self.old.question split }
        ensures value { result ≡ closing self.old.question split }
        ensures same_question { self.new.question ≡ self.old.question }
    {
        self.note_proposed(split);
        if self.is_noted(split) {
            return false;
        }
        // the slices are cut here and in `note_open`, each of which calls another function on them
        let question = self.question;
        let size = question.places(split.c);
        let known = &mut self.known[..size];
        let spare = &mut self.spare[..size];
        if sweeps::both_close(
            question.netlist,
            question.fault,
            question.f,
            split,
            known,
            spare,
        ) {
            return true;
        }
        splits::note_known(known, split.c, self.noted);
        false
    }

    // Whether a split closes, for its c. One that is noted for this c does not, and nothing is worked out.
    pub(crate) fn closes(&mut self, split: Split) -> bool
        requires { Asked self.old.question split }
        ensures value { result ≡ closing self.old.question split }
        ensures same_question { self.new.question ≡ self.old.question }
    {
        !self.is_noted(split) && self.decide(split)
    }
}
