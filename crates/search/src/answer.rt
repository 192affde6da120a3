// The search's answer: the first split whose two branches close, or none, or a refusal.
ghost use Rattle.std.specs.Prelude.{◌≡◌, length, replicate};
ghost use Rattle.search.specs.FinderCall.{finder_call};
ghost use Rattle.search.specs.Inner.Asked.{OfWindow, first_closing};
ghost use Rattle.search.specs.Inner.Search.{found, search_outcome, searched_says, searching};

use crate::question::Question;
use certificate::check_slices;
use circuit::Fault;
use netlist::Refusal;
use splits::Split;

impl Question<'_> {
    // Searches the windows up to that of b, in slices of its size. Both are cleared afterwards.
    fn search_window(&self, known: &mut [u8], spare: &mut [u8]) -> Option<Split>
        requires { OfWindow self.now self.now.b known.old spare.old }
        ensures answer { found result ≡ first_closing self.now }
        ensures cleared { (known.new ≡ replicate (length known.old) 0) × (spare.new ≡ replicate (length spare.old) 0) }
    {
        let split = self.split_in_window(known, spare);
        known.fill(0);
        spare.fill(0);
        split
    }
}

// The first split that closes, by c up to b, then frame, then node; f frames lie behind the fault frame,
// and the certificate's slice has this room. Each refusal is looked for before the next. The parameters stand
// side by side, as the C interface gives them.
#[tactic(auto, using(netlist::proofs::SoundLaws::facts, certificate::proofs::RoomLaws::slices_fit_lem))]
pub fn first_split(
    netlist: &[u8],
    fault: Fault,
    b: u8,
    f: u8,
    room: usize,
    first: &mut [u8],
    second: &mut [u8],
) -> Result<Option<Split>, Refusal>
    ensures { search_outcome (searched_says result) first.new second.new ≡ searching (finder_call netlist.now fault b f first.old second.old (replicate room 0)) }
{
    // by let .. else, as document 01 asks
    let answer = netlist::read(netlist);
    let Ok(size) = answer else {
        return Err(answer.unwrap_err());
    };
    let n = size.nodes;
    if !circuit::fault_exists(netlist, fault) {
        return Err(Refusal::NoSuchFault);
    }
    let frames = knowledge::frames_of(b, f)?;
    let places = n as usize * frames as usize;
    check_slices(places, first, second, room)?;
    let question = Question {
        netlist,
        n,
        fault,
        b,
        f,
    };
    Ok(question.search_window(&mut first[..places], &mut second[..places]))
}
