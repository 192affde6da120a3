// The report, line by line: who calls lends a slice, writes out the line that it then holds, and goes on
// until the report is over.
ghost use Rattle.std.specs.Prelude.{◌≡◌, ◌-◌, ◌<◌, ◌≤◌, true};
ghost use Rattle.circuit.specs.Fault.{fault_exists};
ghost use Rattle.netlist.specs.Netlist.{net_of, node_count, pin_count, reading, sound};
ghost use Rattle.fault_list.specs.Faults.{fault_after};
ghost use Rattle.report_text.specs.Lines.{line_length};
ghost use Rattle.report_text.specs.Turns.{WritesReport, begun, fault_turn, is_over, one_more, progress, stage_at, turn, turn_outcome, next_line, turns_left};

use crate::lines::{mark_line, refused_line, total_line};
use circuit::Fault;

// What comes next: a fault is looked at, or all are counted and the total is written, or nothing. An enum
// and no number for each: the first of the three carries its fault, and a turn matches on nothing else.
#[derive(Clone, Copy)]
pub enum Stage {
    Looking(Fault),
    Counted,
    Over,
}

// How far a report has come: what comes next, the marks and the faults counted, and the length of the line
// that was written last. The line itself does not stand here: its slice would stay lent while a turn writes.
#[derive(Clone, Copy)]
pub struct Progress {
    pub stage: Stage,
    pub marks: u32,
    pub faults: u32,
    pub length: usize,
}

// No line has more bytes than this.
pub const LINE_LENGTH: usize = 80;

// Where the netlist starts: B and F stand before it.
const GIVEN_LENGTH: usize = 2;

impl Progress {
    // The beginning of the report on an input: B, F, netlist.
    #[tactic(auto, using(crate::proofs::ReportLaws::begun_writes), unfolding(crate::specs::Turns::begun))]
    pub fn begin(input: &[u8]) -> Progress
        ensures value { result ≡ begun input.now }
        ensures writes_report { WritesReport input.now result }
    {
        let fault = fault_list::first_of(values::tail(input, GIVEN_LENGTH), 0);
        Progress {
            stage: Stage::Looking(fault),
            marks: 0,
            faults: 0,
            length: 0,
        }
    }

    // Whether the last line has been written.
    pub fn is_over(self) -> bool
        ensures { result ≡ is_over self.stage }
    {
        matches!(self.stage, Stage::Over)
    }

    // The last line has been written, with this length.
    fn ended(self, length: usize) -> Progress
        ensures { result ≡ progress Stage.Over self.marks self.faults length }
    {
        Progress {
            stage: Stage::Over,
            length,
            ..self
        }
    }

    // One mark more.
    fn marked(self) -> Progress
        ensures { result ≡ progress self.stage (one_more self.marks) self.faults self.length }
    {
        Progress {
            marks: self.marks.wrapping_add(1),
            ..self
        }
    }

    // One fault more was looked at and is counted; its line has this length.
    fn fault_counted(self, netlist: &[u8], fault: Fault, length: usize) -> Progress
        requires netlist_sound { reading netlist.now ≡ sound (node_count netlist.now) (pin_count netlist.now) }
        requires fault_exists { fault_exists (net_of netlist.now) fault ≡ true }
        ensures { result ≡ progress (stage_at (net_of netlist.now) (fault_after (net_of netlist.now) fault)) self.marks (one_more self.faults) length }
    {
        Progress {
            stage: fault_list::listed_after(netlist, fault).map_or(Stage::Counted, Stage::Looking),
            faults: self.faults.wrapping_add(1),
            length,
            ..self
        }
    }

    // Looks at a fault: its line is written where the finder marks it, the refusal's where it refuses. The
    // slices go side by side: in a struct the certificate's bytes are no longer known once they were read.
    #[tactic(auto, using(crate::proofs::TurnLaws::Said, crate::proofs::TurnLaws::said, crate::proofs::TurnLaws::turns_fall), unfolding(crate::specs::Turns::made_for))]
    fn look_at(
        self,
        input: &[u8],
        fault: Fault,
        first: &mut [u8],
        second: &mut [u8],
        certificate: &mut [u8],
        line: &mut [u8],
    ) -> Progress
        ensures turn_made { turn_outcome result first.new second.new certificate.new line.new ≡ fault_turn fault (turn input.now self first.old second.old certificate.old line.old) }
        ensures line_fits { result.length ≤ line_length }
        ensures turns_fall { turns_left input.now result.stage < turns_left input.now (Stage.Looking fault) }
    {
        let netlist = values::tail(input, GIVEN_LENGTH);
        let b = values::byte_at(input, 0);
        let f = values::byte_at(input, 1);
        let finding = finder::find(netlist, fault, b, f, first, second, certificate);
        match finding {
            Ok(Some(mark)) => {
                let head = certificate::head_of(certificate);
                let length = mark_line(line, fault, mark.c, head);
                self.marked().fault_counted(netlist, fault, length)
            }
            Ok(None) => self.fault_counted(netlist, fault, 0),
            Err(refusal) => self.ended(refused_line(line, u8::from(refusal))),
        }
    }

    // Writes the next line of the report, which may be empty, and says how far the report has come. The slices
    // go side by side, as in `look_at`.
    #[tactic(auto, unfolding(crate::specs::Turns::turn_in, crate::specs::Turns::fault_turn))]
    pub fn next_line(
        self,
        input: &[u8],
        first: &mut [u8],
        second: &mut [u8],
        certificate: &mut [u8],
        line: &mut [u8],
    ) -> Progress
        ensures turn_made { turn_outcome result first.new second.new certificate.new line.new ≡ next_line (turn input.now self first.old second.old certificate.old line.old) }
        ensures line_fits { result.length ≤ line_length }
        ensures turns_fall { turns_left input.now result.stage ≤ turns_left input.now self.stage - 1 }
    {
        match self.stage {
            Stage::Looking(fault) => self.look_at(input, fault, first, second, certificate, line),
            Stage::Counted => self.ended(total_line(line, self.marks, self.faults)),
            Stage::Over => self.ended(0),
        }
    }
}
