// What a certificate's bytes say.
ghost use Rattle.std.specs.Prelude.{◌≡◌, ◌&&◌, ◌*◌, ◌+◌, leb, length};
ghost use Rattle.certificate.specs.Certificate.{head_length, pairs_right, run_length, run_offset};
ghost use Rattle.certificate.specs.Inner.Parts.{named_bytes};
ghost use Rattle.certificate.specs.Inner.Reading.{head_of};

use crate::step::STEP_LENGTH;
use circuit::{Fault, Site};
use values::{byte_at, u16_at, u32_at};

// How many bytes stand before the pairs.
const NAMED_LENGTH: usize = 9;

// How many bytes stand before the steps, the pairs with them.
pub const HEAD_LENGTH: usize = 25;

// What stands before the pairs: the fault, c and F, and the split.
#[derive(Clone, Copy)]
pub struct Head {
    pub fault: Fault,
    pub c: u8,
    pub f: u8,
    pub node: u16,
    pub frame: u8,
}

impl Head {
    // Its bytes, as they stand before the pairs.
    pub(crate) fn to_bytes(self) -> [u8; NAMED_LENGTH]
        ensures { result ≡ named_bytes self }
    {
        let Head {
            fault,
            c,
            f,
            node,
            frame,
        } = self;
        let [fault_low, fault_high] = fault.node.to_le_bytes();
        let [low, high] = node.to_le_bytes();
        let site = u8::from(fault.site);
        [
            fault_low,
            fault_high,
            site,
            fault.stuck,
            c,
            f,
            low,
            high,
            frame,
        ]
    }
}

#[tactic(auto, using(crate::proofs::LayoutLaws::head_by))]
pub fn head_of(certificate: &[u8]) -> Head
    ensures { result ≡ head_of certificate.now }
{
    let fault = Fault {
        node: u16_at(certificate, 0),
        site: Site::from(byte_at(certificate, 2)),
        stuck: byte_at(certificate, 3),
    };
    Head {
        fault,
        c: byte_at(certificate, 4),
        f: byte_at(certificate, 5),
        node: u16_at(certificate, 6),
        frame: byte_at(certificate, 8),
    }
}

// Where the pair of branch v stands: behind the split. A pair is an offset and a length, of four bytes each.
pub(crate) fn pair_place(v: u8) -> usize
    ensures { result ≡ 9 + 8 * v }
{
    NAMED_LENGTH + 8 * v as usize
}

// The pair of branch v: where its run starts, and the run's length in bytes.
#[tactic(auto, using(crate::proofs::LayoutLaws::offset_by, crate::proofs::LayoutLaws::length_by))]
fn pair_of(certificate: &[u8], v: u8) -> (u32, u32)
    ensures offset { result.0 ≡ run_offset certificate.now v }
    ensures length { result.1 ≡ run_length certificate.now v }
{
    let place = pair_place(v);
    (u32_at(certificate, place), u32_at(certificate, place + 4))
}

// Where the run of branch v starts.
pub fn run_offset(certificate: &[u8], v: u8) -> u32
    ensures { result ≡ run_offset certificate.now v }
{
    pair_of(certificate, v).0
}

// The length of the run of branch v, in bytes.
pub fn run_length(certificate: &[u8], v: u8) -> u32
    ensures { result ≡ run_length certificate.now v }
{
    pair_of(certificate, v).1
}

// The certificate has its head, the first run follows it, the second run follows the first and ends
// the certificate, and both have whole steps.
#[tactic(auto, unfolding(crate::specs::Certificate::pairs_right))]
pub fn layout_right(certificate: &[u8]) -> bool
    ensures { result ≡ (leb head_length (length certificate.now) && pairs_right certificate.now) }
{
    if certificate.len() < HEAD_LENGTH {
        return false;
    }
    let (start, first) = pair_of(certificate, 0);
    let (middle, second) = pair_of(certificate, 1);
    start as usize == HEAD_LENGTH
        && middle as usize == HEAD_LENGTH + first as usize
        && certificate.len() == middle as usize + second as usize
        && first as usize % STEP_LENGTH == 0
        && second as usize % STEP_LENGTH == 0
}
