// The kit for C and other languages: numbers and byte slices alone. A slice is passed as a
// pointer and then a length: the caller sees to it that the pointer is valid for that length and that a
// slice that is written overlaps no other. Any numbers and any bytes then get an answer.
#![tactic(auto)]

ghost use Rattle.std.specs.Prelude.{◌⊎◌, ◌≡◌, ℕ, ◌*◌, ◌+◌, ◌<◌, MatchResult, take};
ghost use Rattle.std.specs.Result.{ForOk};
ghost use Rattle.netlist.specs.Answer.{number_of, refused};
ghost use Rattle.netlist.specs.Refusal.{number_of_refusal};
ghost use Rattle.netlist.specs.Netlist.{reading, reading_says};
ghost use Rattle.simulator.specs.Clock.{simulator_call, simulation, stepped_says};
ghost use Rattle.capi.specs.Numbers.{check_number, circuit_of, find_number, numbered_finder, numbered_by, numbered_finding, numbered_outcome, read_number, site_fault};
ghost use Rattle.certificate.specs.Certificate.{fault_of};
ghost use Rattle.simulator.specs.Statement.{Redundant};
ghost use Rattle.checker.specs.Checker.{accepted, checked_says, checker_call, checking};
ghost use Rattle.search.specs.FinderCall.{finder_call};
ghost use Rattle.finder.specs.Finder.{finding, finding_says, found, nothing_found};
ghost use Rattle.finder.specs.Marks.{IsMark, NoneCloses};

use circuit::{Circuit, Fault, Site};
use netlist::Refusal;

fn fault_of(node: u16, site: u8, u: u8) -> Fault
    ensures { result ≡ site_fault node site u }
{
    Fault {
        node,
        site: Site::from(site),
        stuck: u,
    }
}

fn circuit_of(faulted: u8, node: u16, site: u8, u: u8) -> Circuit
    ensures { result ≡ circuit_of faulted node site u }
{
    if faulted == 0 {
        return Circuit::Good;
    }
    Circuit::Faulty(fault_of(node, site, u))
}

// The number of an answer: the refusal's, or the one that is made of what the answer says. It is no From:
// neither an answer nor a number is a type of this crate.
fn number_of<T, F: FnOnce(T) -> u64>(answer: Result<T, Refusal>, number: F) -> u64
    requires { ForOk answer (F.pre number) }
    ensures { MatchResult answer (λ x. F.post number x result) (λ refusal. result ≡ number_of_refusal refusal) }
{
    answer.map_or_else(|refusal| u8::from(refusal) as u64, number)
}

// Whether a netlist is sound: the refusal's number, or 2^32 + 65,536 × N + P.
#[unsafe(no_mangle)]
pub extern "C" fn leverpeach_read(netlist: &[u8]) -> u64
    ensures { result ≡ read_number (reading netlist.now) }
{
    number_of(netlist::read(netlist), |size| {
        4294967296 + 65536 * (size.nodes as u64) + size.pins as u64
    })
}

// One clock step: 0 for done, or the refusal's number. Where `faulted` is 0 the circuit is good,
// and node, site and u are not looked at.
#[unsafe(no_mangle)]
pub extern "C" fn leverpeach_simulate(
    netlist: &[u8],
    faulted: u8,
    node: u16,
    site: u8,
    u: u8,
    first: &mut [u8],
    second: &mut [u8],
) -> u64
    ensures { numbered_outcome result first.new second.new ≡ numbered_by number_of (simulation (simulator_call netlist.now (circuit_of faulted node site u) first.old second.old)) }
{
    let circuit = circuit_of(faulted, node, site, u);
    number_of(simulator::simulate(netlist, circuit, first, second), |()| 0)
}

// Whether a certificate is accepted: the refusal's number, or 2^32 + c. Then, from clock c on, every
// output of the faulty circuit equals that of the good one started from the values that the faulty
// one has latched before clock c.
#[unsafe(no_mangle)]
pub extern "C" fn leverpeach_check(
    netlist: &[u8],
    certificate: &[u8],
    first: &mut [u8],
    second: &mut [u8],
) -> u64
    ensures outcome { numbered_outcome result first.new second.new ≡ numbered_by check_number (checking (checker_call netlist.now certificate.now first.old second.old)) }
    ensures means_redundant { (c : ℕ) → result ≡ 4294967296 + c → Redundant netlist.now (fault_of certificate.now) c }
{
    let answer = checker::check(netlist, certificate, first, second);
    number_of(answer, |c| 4294967296 + c as u64)
}

// Finds a mark for a fault: 0 for none, the refusal's number, or 2^32 × (c + 1) + the length of the
// certificate that then stands at the start of its slice. That certificate is accepted for the same
// netlist and any two work slices that 11 lets pass, with this c; its fault is then redundant from
// clock c on. It has (length - 25) / 7 steps.
#[unsafe(no_mangle)]
pub extern "C" fn leverpeach_find(
    netlist: &[u8],
    node: u16,
    site: u8,
    u: u8,
    b: u8,
    f: u8,
    first: &mut [u8],
    second: &mut [u8],
    certificate: &mut [u8],
) -> u64
    ensures outcome { numbered_finding result first.new second.new certificate.new ≡ numbered_finder (finding (finder_call netlist.now (site_fault node site u) b f first.old second.old certificate.old)) }
    ensures means_mark { (c l : ℕ) → l < 4294967296 → result ≡ 4294967296 * (c + 1) + l → (k : ℕ) × IsMark netlist.now (site_fault node site u) b f c k (take l certificate.new) }
    ensures means_none_closes { result ≡ 0 → NoneCloses netlist.now (site_fault node site u) b f }
{
    let fault = fault_of(node, site, u);
    let answer = finder::find(netlist, fault, b, f, first, second, certificate);
    number_of(answer, |mark| {
        mark.map_or(
            0,
            |mark| 4294967296 * (mark.c as u64 + 1) + mark.length as u64,
        )
    })
}
