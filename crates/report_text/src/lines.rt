// The text of a line, written into a slice. What has no room there is left out, so `write!` is not used: of a
// slice that is too short it promises nothing.
ghost use Rattle.std.specs.Prelude.{◌≡◌, ◌≤◌, length};
ghost use Rattle.std.proofs.lemmas.List.Edits.{sets};
ghost use Rattle.splits.specs.Split.{split};
ghost use Rattle.report_text.specs.Lines.{line_length, mark_line, refused_line, total_line};

use certificate::Head;
use circuit::Fault;
use fault_list::{put_field, put_text};

// The line of a mark: the fault, c, and the split that its certificate names. Says how long it is.
#[tactic(auto, using(fault_list::proofs::TextLaws::runs), unfolding(crate::specs::Lines::mark_line))]
pub(crate) fn mark_line(out: &mut [u8], fault: Fault, c: u8, head: Head) -> usize
    ensures length_said { (result ≡ length (mark_line fault (split c head.frame head.node))) × (result ≤ line_length) }
    ensures written { out.new ≡ sets out.old 0 (mark_line fault (split c head.frame head.node)) }
{
    let mut end = put_field(out, 0, fault.node as u32, b' ');
    end += put_field(out, end, u8::from(fault.site) as u32, b' ');
    end += put_field(out, end, fault.stuck as u32, b' ');
    end += put_field(out, end, c as u32, b' ');
    end += put_field(out, end, head.node as u32, b' ');
    end + put_field(out, end, head.frame as u32, b'\n')
}

// The last line: so many marks among so many faults.
#[tactic(auto, using(fault_list::proofs::TextLaws::runs), unfolding(crate::specs::Lines::total_line))]
pub(crate) fn total_line(out: &mut [u8], marks: u32, faults: u32) -> usize
    ensures length_said { (result ≡ length (total_line marks faults)) × (result ≤ line_length) }
    ensures written { out.new ≡ sets out.old 0 (total_line marks faults) }
{
    let mut end = put_field(out, 0, marks, b' ');
    end += put_text(out, end, b"of ");
    end + put_field(out, end, faults, b'\n')
}

// The line of a refusal.
#[tactic(auto, using(fault_list::proofs::TextLaws::runs), unfolding(crate::specs::Lines::refused_line))]
pub(crate) fn refused_line(out: &mut [u8], number: u8) -> usize
    ensures length_said { (result ≡ length (refused_line number)) × (result ≤ line_length) }
    ensures written { out.new ≡ sets out.old 0 (refused_line number) }
{
    let end = put_text(out, 0, b"refused ");
    end + put_field(out, end, number as u32, b'\n')
}
