// Sweeps: what the relations conclude, frame by frame and node by node. What is known lies in a work
// slice; each step is written into the run, as far as that has room.
ghost use Rattle.std.specs.Prelude.{◌≡◌, ◌&&◌, true, false, [], suc, ◌*◌, ◌+◌, ◌<◌, ◌≤◌, ltb, length};
ghost use Rattle.values.specs.Lists.{at};
ghost use Rattle.netlist.specs.Netlist.{length_of, pin_count, reading, sound};
ghost use Rattle.sweeps.specs.Inner.Work.{frame_noted, work};
ghost use Rattle.sweeps.specs.Inner.Windows.{CalmIn, FewSteps, IsSettled, frame_in, line_of, pins_of, relation_in, source_place, sweep_in, sweeps_in, work_of};

use crate::window::Window;
use certificate::{STEP_LENGTH, put_step};
use gates::UNKNOWN;
use knowledge::MOST_FRAMES;

// A byte for each frame says whether it is calm: an array, since there is no heap.
const CALM_LENGTH: usize = MOST_FRAMES as usize;

// How far a branch has come: the steps made, and whether a contradiction was met. It goes by value beside the
// two slices: a struct of all three was tried, and four goals of the bound on the steps stayed open. So
// `FewSteps` is asked of the three wherever steps are written. The flag as a number was tried too, and showed no
// gain: docs/DECISIONS.md has the measure.
#[derive(Clone, Copy, Debug, PartialEq, Eq)]
pub struct Progress {
    pub steps: usize,
    pub closed: bool,
}

// Which frames are calm: where a frame's byte is not 0, the frame has no step to make. Where no room is lent,
// none is ever noted. Bytes rather than bools, since of bytes the kit reads and stores any place, room or not.
#[derive(Drop)]
struct Calm<'a> {
    noted: &'a mut [u8],
}

impl Calm<'_> {
    fn is_calm(&self, frame: u8) -> bool
        ensures { result ≡ ltb 0 (at self.now.noted.now frame) }
    {
        values::byte_at(self.noted, frame as usize) > 0
    }

    // Notes what the sweep of a frame has shown. Without a step the frame is calm: it would make none
    // again. A step tells something new of the frame or the one before, and each frame reads itself and
    // the one before: so the frame and both its neighbours may have something to conclude.
    #[tactic(auto, unfolding(crate::specs::Inner::Work::frame_noted))]
    fn note(&mut self, frame: u8, still: bool)
        ensures noted { self.new.noted.now ≡ frame_noted self.old.noted.now frame still }
        ensures same_room { length self.new.noted.now ≡ length self.old.noted.now }
    {
        let place = frame as usize;
        if still {
            values::store(self.noted, place, 1);
            return;
        }
        values::store(self.noted, place.saturating_sub(1), 0);
        values::store(self.noted, place, 0);
        values::store(self.noted, place + 1, 0);
    }
}

// The relation of a node at a frame of a window.
#[derive(Clone, Copy)]
struct Relation<'a> {
    window: Window<'a>,
    node: u16,
    frame: u8,
}

impl Relation<'_> {
    // Takes what the relation concludes of one of its lines, which are numbered as knowledge::conclude numbers
    // them. A value that is known already is no step.
    #[tactic(auto, using(crate::proofs::WorkLaws::lines))]
    fn try_line(self, line: u16, known: &mut [u8], run: &mut [u8], progress: Progress) -> Progress
        requires few { FewSteps (work_of known.old run.old progress) }
        ensures { work_of known.new run.new result ≡ line_of self.entry line (work_of known.old run.old progress) }
    {
        let Window {
            netlist,
            n,
            fault,
            c,
            ..
        } = self.window;
        let steps = progress.steps;
        if progress.closed {
            return progress;
        }
        let step = knowledge::conclude(netlist, fault, c, known, self.node, self.frame, line);
        let value = step.value;
        if value >= UNKNOWN {
            return progress;
        }
        let place = knowledge::place_of(n, step.node, step.frame as u16);
        if values::byte_at(known, place) == value {
            return progress;
        }
        put_step(run, STEP_LENGTH * steps, step);
        let closed = knowledge::enter_value(known, place, value);
        Progress {
            steps: steps + 1,
            closed,
        }
    }

    // Whether the source of a pin keeps its value: the relation is settled, and the source is known, in
    // the frame of the pins.
    fn source_keeps(self, pin: u16, settled: bool, known: &[u8]) -> bool
        ensures { result ≡ (settled && ltb (at known.now (source_place self.entry pin)) 2) }
    {
        if !settled {
            return false;
        }
        let netlist = self.window.netlist;
        let pins_at = knowledge::pin_frame_of(netlist, self.node, self.frame);
        let source = netlist::source_of(netlist, self.node, pin);
        let place = knowledge::place_of(self.window.n, source, pins_at as u16);
        values::byte_at(known, place) < UNKNOWN
    }

    // Takes what the relation concludes of the source of a pin. Where the relation is settled, its output's
    // line being no step, a source that is known already keeps its value: nothing is worked out.
    #[tactic(auto, using(values::proofs::BoolLaws::and_left, values::proofs::BoolLaws::and_right), unfolding(netlist::specs::Netlist::net_of))]
    fn try_pin(
        self,
        pin: u16,
        settled: bool,
        known: &mut [u8],
        run: &mut [u8],
        progress: Progress,
    ) -> Progress
        requires few { FewSteps (work_of known.old run.old progress) }
        requires is_pin { (pin < length_of self.window.netlist.now self.node) × (pin < 65535) }
        requires settled { settled ≡ true → IsSettled self (work_of known.old run.old progress) }
        ensures { work_of known.new run.new result ≡ line_of self.entry (suc pin) (work_of known.old run.old progress) }
    {
        if self.source_keeps(pin, settled, known) {
            return progress;
        }
        self.try_line(pin + 1, known, run, progress)
    }

    // Takes what the relation concludes of its pins' sources, in order. The progress is that after the
    // output's line, and there were so many steps before it. No fold, here and in the sweeps: nothing is known
    // behind it of the slices that its closure altered.
    #[tactic(auto, using(crate::proofs::KnownPinLaws::pin_walk, crate::proofs::RisingLaws::rising_more), unfolding(crate::specs::Sweeps::rising))]
    fn try_pins(
        self,
        start: usize,
        known: &mut [u8],
        run: &mut [u8],
        progress: Progress,
    ) -> Progress
        requires few { FewSteps (work_of known.old run.old progress) }
        requires output_tried { (start ≤ progress.steps) × (progress.steps ≡ start → IsSettled self (work_of known.old run.old progress)) }
        ensures { work_of known.new run.new result ≡ pins_of self.entry (length_of self.entry.window.netlist.now self.entry.node) (work_of known.old run.old progress) }
    {
        let count = netlist::length_of(self.window.netlist, self.node);
        let mut done = progress;
        for pin in 0..count {
            let settled = done.steps == start;
            done = self.try_pin(pin, settled, known, run, done);
        }
        done
    }

    // Uses the relation: first the output, then the pins in order. Of a pin nothing is concluded where the
    // output is unknown.
    #[tactic(auto, using(crate::proofs::KnownPinLaws::output_line, crate::proofs::WorkLaws::one_relation))]
    fn conclude(self, known: &mut [u8], run: &mut [u8], progress: Progress) -> Progress
        requires few { FewSteps (work_of known.old run.old progress) }
        ensures { work_of known.new run.new result ≡ relation_in self.entry.window self.entry.frame self.entry.node (work_of known.old run.old progress) }
    {
        let Window {
            netlist,
            n,
            fault,
            c,
            ..
        } = self.window;
        if !knowledge::in_force(netlist, fault, c, self.node, self.frame) {
            return progress;
        }
        let start = progress.steps;
        let done = self.try_line(0, known, run, progress);
        let output = knowledge::place_of(n, self.node, self.frame as u16);
        if values::byte_at(known, output) >= UNKNOWN {
            return done;
        }
        self.try_pins(start, known, run, done)
    }
}

impl Window<'_> {
    // Uses the relations at a frame, by rising node. A contradiction ends it at once.
    #[tactic(auto, using(crate::proofs::RisingLaws::rising_more, crate::proofs::WorkLaws::relations), unfolding(crate::specs::Sweeps::rising, crate::specs::Sweeps::sweep_frame))]
    fn sweep_frame(
        self,
        frame: u8,
        known: &mut [u8],
        run: &mut [u8],
        progress: Progress,
    ) -> Progress
        requires few { FewSteps (work_of known.old run.old progress) }
        ensures { work_of known.new run.new result ≡ frame_in self.entry frame (work_of known.old run.old progress) }
    {
        let mut done = progress;
        for node in 0..self.n {
            if done.closed {
                return done;
            }
            let relation = Relation {
                window: self,
                node,
                frame,
            };
            done = relation.conclude(known, run, done);
        }
        done
    }

    // Uses the relations at a frame, unless it is calm: then there is no step to make. Calm frames are noted
    // of a sound netlist only: for any other no room is lent.
    #[tactic(auto, unfolding(crate::specs::Inner::Work::CalmFrames))]
    fn sweep_unless_calm(
        self,
        frame: u8,
        calm: &mut Calm,
        known: &mut [u8],
        run: &mut [u8],
        progress: Progress,
    ) -> Progress
        requires few { FewSteps (work_of known.old run.old progress) }
        requires sound_where_noted { 0 < length calm.old.noted.now → reading self.netlist.now ≡ sound self.n (pin_count self.netlist.now) }
        requires calm_before { CalmIn self calm.old.noted.now (work_of known.old run.old progress) }
        ensures swept { work_of known.new run.new result ≡ frame_in self.entry frame (work_of known.old run.old progress) }
        ensures calm_after { CalmIn self.entry calm.new.noted.now (work_of known.new run.new result) }
        ensures same_room { length calm.new.noted.now ≡ length calm.old.noted.now }
    {
        if calm.is_calm(frame) {
            return progress;
        }
        let before = progress.steps;
        let done = self.sweep_frame(frame, known, run, progress);
        calm.note(frame, done.steps == before);
        done
    }

    // One sweep, by rising frame; frames that are calm are left out.
    #[tactic(auto, using(crate::proofs::RisingLaws::rising_more), unfolding(crate::specs::Sweeps::rising, crate::specs::Sweeps::sweep))]
    fn sweep(
        self,
        calm: &mut Calm,
        known: &mut [u8],
        run: &mut [u8],
        progress: Progress,
    ) -> Progress
        requires few { FewSteps (work_of known.old run.old progress) }
        requires sound_where_noted { 0 < length calm.old.noted.now → reading self.netlist.now ≡ sound self.n (pin_count self.netlist.now) }
        requires calm_before { CalmIn self calm.old.noted.now (work_of known.old run.old progress) }
        ensures swept { work_of known.new run.new result ≡ sweep_in self.entry (work_of known.old run.old progress) }
        ensures calm_after { CalmIn self.entry calm.new.noted.now (work_of known.new run.new result) }
    {
        let mut done = progress;
        for frame in 0..self.w {
            done = self.sweep_unless_calm(frame, calm, known, run, done);
        }
        done
    }

    // One sweep of what is known, of which no step is written. There is no room to note calm frames, so none
    // is left out, and nothing is asked of the netlist: that a frame stays calm is shown for sound ones only. The
    // slices are empty, since a second copy of the sweep made reports slower (docs/DECISIONS.md).
    pub(crate) fn sweep_once(self, known: &mut [u8]) -> Progress
        requires few { FewSteps (work known.old [] 0 false) }
        ensures { work_of known.new [] result ≡ sweep_in self.entry (work known.old [] 0 false) }
    {
        let mut no_room = [0u8; 0];
        let mut calm = Calm {
            noted: &mut no_room,
        };
        let mut unwritten = [0u8; 0];
        let start = Progress {
            steps: 0,
            closed: false,
        };
        self.sweep(&mut calm, known, &mut unwritten, start)
    }

    // Sweeps until one makes no step or meets a contradiction. At first no frame is calm.
    #[tactic(auto, unfolding(crate::specs::Sweeps::sweeps))]
    pub(crate) fn sweep_to_end(
        self,
        known: &mut [u8],
        run: &mut [u8],
        progress: Progress,
    ) -> Progress
        requires sound { reading self.netlist.now ≡ sound self.n (pin_count self.netlist.now) }
        requires few { FewSteps (work_of known.old run.old progress) }
        ensures { work_of known.new run.new result ≡ sweeps_in self.entry (self.entry.n * self.entry.w + 1) (work_of known.old run.old progress) }
    {
        let mut room = [0u8; CALM_LENGTH];
        let mut calm = Calm { noted: &mut room };
        let mut done = progress;
        let most = self.places() + 1;
        for _ in 0..most {
            let before = done.steps;
            done = self.sweep(&mut calm, known, run, done);
            if done.closed || done.steps == before {
                return done;
            }
        }
        done
    }
}
