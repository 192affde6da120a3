// The walk over splits: the first whose two branches close.
ghost use Rattle.std.specs.Prelude.{◌≡◌, false, true, ℕ, ◌+◌, ◌<◌};
ghost use Rattle.search.specs.Inner.Asked.{OfWindow, closing, first_closing};
ghost use Rattle.search.specs.Inner.Search.{found};
ghost use Rattle.splits.specs.Split.{split};

use crate::question::Question;
use crate::quick::Scratch;
use crate::search::Search;
use crate::trial::NODES_AT_MOST;
use knowledge::MOST_FRAMES;
use splits::Split;

// Room for the guess and for notes of splits that stay open: a byte for each place of the longest window
// of the greatest circuit. There is no heap, so it is an array, as is all room here, in `trial` and in `quick`.
const NOTED_LENGTH: usize = MOST_FRAMES as usize * NODES_AT_MOST;

impl Search<'_> {
    // Walks the splits by c up to b, then frame, then node, up to the first whose two branches close. Splits
    // that are shown to stay open are noted: at the start of a window those of the guess. The split itself goes
    // on: no number is counted that a range could give.
    fn walk_splits(&mut self) -> Option<Split>
        ensures { found result ≡ first_closing self.old.question }
    {
        let question = self.question;
        let mut split = splits::first_of(0);
        while split.is_within(question.b) {
            self.note_window(split);
            if self.closes(split) {
                return Some(split);
            }
            split = split.next(question.n, question.f);
        }
        None
    }

    // Whether no split of a frame closes for b. No `all`, here and for the frames: nothing is known behind it of
    // what its closure altered in the search, and the proof did not close.
    fn frame_open(&mut self, frame: u8) -> bool
        requires { frame < self.old.question.b + self.old.question.f + 1 }
        ensures value { result ≡ true → (m : ℕ) → m < self.old.question.n → closing self.old.question (split self.old.question.b frame m) ≡ false }
        ensures same_question { self.new.question ≡ self.old.question }
    {
        let c = self.question.b;
        for node in 0..self.question.n {
            let split = Split { c, frame, node };
            if self.closes(split) {
                return false;
            }
        }
        true
    }

    // Whether no split closes for b, frame by frame.
    fn frames_open(&mut self) -> bool
        ensures value { result ≡ true → (t m : ℕ) → t < self.old.question.b + self.old.question.f + 1 → m < self.old.question.n → closing self.old.question (split self.old.question.b t m) ≡ false }
        ensures same_question { self.new.question ≡ self.old.question }
    {
        for frame in 0..self.question.frames(self.question.b) {
            if !self.frame_open(frame) {
                return false;
            }
        }
        true
    }

    // Whether it is shown that no split closes for b: then none closes for any smaller c. Asked only where
    // there is a smaller c and something is guessed: where nothing is, some split most likely closes.
    fn window_open(&mut self) -> bool
        ensures value { result ≡ true → (t m : ℕ) → t < self.old.question.b + self.old.question.f + 1 → m < self.old.question.n → closing self.old.question (split self.old.question.b t m) ≡ false }
        ensures same_question { self.new.question ≡ self.old.question }
    {
        if self.asks_first() {
            self.note_window(splits::first_of(self.question.b));
            return self.frames_open();
        }
        false
    }

    // The first split that closes. Where none closes for b, none does for smaller c, and the splits are not
    // walked.
    fn search_windows(&mut self) -> Option<Split>
        ensures { found result ≡ first_closing self.old.question }
    {
        if self.window_open() {
            return None;
        }
        self.walk_splits()
    }
}

// Each of these functions asks that the two slices have the window's size, as does `search_window`. `Search` has
// that as a fact of its own, but is made only here, once there are notes. A struct of the question and the two
// slices alone, for the calls before that, would be no plainer.
impl Question<'_> {
    // Searches the windows with room for notes and for the quick search, and with a guess.
    #[tactic(auto, using(crate::proofs::NotesLaws::notes_guesses))]
    fn guess_and_search(&self, known: &mut [u8], spare: &mut [u8]) -> Option<Split>
        requires { OfWindow self.now self.now.b known.old spare.old }
        ensures { found result ≡ first_closing self.now }
    {
        let mut noted = [0u8; NOTED_LENGTH];
        let mut scratch = Scratch::new();
        scratch.read(self.netlist, self.n);
        self.grow(&mut noted, known, &mut scratch);
        let mut search = Search {
            question: *self,
            known,
            spare,
            noted: &mut noted,
            scratch: &mut scratch,
        };
        search.search_windows()
    }

    // The first split whose two branches close, by c up to b, then frame, then node. Where the fault is seen
    // at or after clock b, none closes for any c up to b, and none is searched for.
    #[tactic(auto, using(netlist::proofs::SoundLaws::facts))]
    pub(crate) fn split_in_window(&self, known: &mut [u8], spare: &mut [u8]) -> Option<Split>
        requires { OfWindow self.now self.now.b known.old spare.old }
        ensures { found result ≡ first_closing self.now }
    {
        if self.rules_out(known, spare) {
            return None;
        }
        self.guess_and_search(known, spare)
    }
}
