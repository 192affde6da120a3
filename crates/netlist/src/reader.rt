// The netlist: what its bytes say, and whether they are a sound netlist.
ghost use Rattle.std.specs.Prelude.{◌≡◌, ◌&&◌, cond, eqb, ◌*◌, ◌+◌, ◌<◌};
ghost use Rattle.gates.specs.Kind.{is_flip_flop, is_given, kind_named, number_of, rule_of};
ghost use Rattle.values.specs.Lists.{every, u16_at};
ghost use Rattle.netlist.specs.Netlist.{node_count, pin_count, kind_of, offset_of, length_of, source_of, pair_start, reading, reading_says};
ghost use Rattle.netlist.specs.Netlist.{sizes_allowed, kind_known, pair_joined, count_fits, source_allowed, sources_allowed};

use crate::refusal::Refusal;
use gates::{Kind, Rule, UnknownKind};
use values::{byte_at, u16_at};

// The most nodes, and the most pins of all nodes together.
pub const MOST_NODES: u16 = 4096;

pub const MOST_PINS_IN_ALL: u16 = 16384;

// N and P of a netlist.
#[derive(Clone, Copy, Debug, PartialEq, Eq)]
pub struct Size {
    pub nodes: u16,
    pub pins: u16,
}

// N: how many nodes the netlist has.
pub fn node_count(netlist: &[u8]) -> u16
    ensures { result ≡ node_count netlist.now }
{
    u16_at(netlist, 0)
}

// P: how many pins the netlist says that it has.
fn pin_count(netlist: &[u8]) -> u16
    ensures { result ≡ pin_count netlist.now }
{
    u16_at(netlist, 2)
}

// The number of a node's kind, whether or not it names one.
pub fn kind_number(netlist: &[u8], node: u16) -> u8
    ensures { result ≡ kind_of netlist.now node }
{
    byte_at(netlist, 4 + 5 * (node as usize))
}

// What kind a node has, or that its number names none.
pub fn kind_of(netlist: &[u8], node: u16) -> Result<Kind, UnknownKind>
    ensures { result ≡ kind_named (kind_of netlist.now node) }
{
    Kind::try_from(kind_number(netlist, node))
}

// The rule of a node's kind. No pin count fits a number that names no kind.
pub fn rule_of(netlist: &[u8], node: u16) -> Rule
    ensures { result ≡ rule_of (kind_of netlist.now node) }
{
    gates::rule_of(kind_number(netlist, node))
}

// Whether a node is of a kind.
pub fn is_of_kind(netlist: &[u8], node: u16, kind: Kind) -> bool
    ensures { result ≡ eqb (kind_of netlist.now node) (number_of kind) }
{
    kind_number(netlist, node) == u8::from(kind)
}

// Whether the clock step is given a node's value.
#[tactic(auto, using(gates::proofs::KindLaws::named_kind, gates::proofs::KindLaws::given_none))]
pub fn is_given(netlist: &[u8], node: u16) -> bool
    ensures { result ≡ is_given (kind_of netlist.now node) }
{
    kind_of(netlist, node).is_ok_and(Kind::is_given)
}

// The offset of a node's pair, counted in pins.
fn offset_of(netlist: &[u8], node: u16) -> u16
    ensures { result ≡ offset_of netlist.now node }
{
    u16_at(netlist, 5 + 5 * (node as usize))
}

// How many pins a node has.
pub fn length_of(netlist: &[u8], node: u16) -> u16
    ensures { result ≡ length_of netlist.now node }
{
    u16_at(netlist, 7 + 5 * (node as usize))
}

// Where the sources of a node's pins stand, two bytes each.
pub fn pins_place(netlist: &[u8], node: u16) -> u32
    ensures { result ≡ 4 + 5 * node_count netlist.now + 2 * offset_of netlist.now node }
{
    4 + 5 * (node_count(netlist) as u32) + 2 * (offset_of(netlist, node) as u32)
}

// The source of a pin of a node whose pins stand at the place.
pub fn source_at(netlist: &[u8], place: u32, pin: u16) -> u16
    ensures { result ≡ u16_at netlist.now (place + 2 * pin) }
{
    u16_at(netlist, place as usize + 2 * (pin as usize))
}

// The source of a node's pin.
#[tactic(auto, using(crate::proofs::NetlistLaws::source_place))]
pub fn source_of(netlist: &[u8], node: u16, pin: u16) -> u16
    ensures { result ≡ source_of netlist.now node pin }
{
    source_at(netlist, pins_place(netlist, node), pin)
}

// Whether N and P are within their limits.
#[tactic(auto, unfolding(crate::specs::Netlist::sizes_allowed))]
fn sizes_allowed(n: u16, p: u16) -> bool
    ensures { result ≡ sizes_allowed n p }
{
    0 < n && n <= MOST_NODES && p <= MOST_PINS_IN_ALL
}

// Whether each of the first n nodes has a kind that there is.
fn kinds_known(netlist: &[u8], n: u16) -> bool
    ensures { result ≡ every (kind_known netlist.now) n }
{
    (0..n).all(|node| kind_of(netlist, node).is_ok())
}

// Each pair starts where the one before it ends, the first at 0, and the last ends at p. A loop and no fold: it
// stops at the first pair that does not join.
fn pairs_joined(netlist: &[u8], n: u16, p: u16) -> bool
    ensures { result ≡ (every (pair_joined netlist.now) n && eqb (pair_start netlist.now n) p) }
{
    let mut start: usize = 0;
    for node in 0..n {
        let offset = offset_of(netlist, node) as usize;
        if offset != start {
            return false;
        }
        start = offset + length_of(netlist, node) as usize;
    }
    start == p as usize
}

// Whether a node has as many pins as its kind allows.
#[tactic(auto, unfolding(crate::specs::Netlist::count_fits))]
fn count_fits(netlist: &[u8], node: u16) -> bool
    ensures { result ≡ count_fits netlist.now node }
{
    let rule = rule_of(netlist, node);
    let count = length_of(netlist, node);
    rule.least <= count && count <= rule.most
}

// Whether each of the first n nodes has as many pins as its kind allows.
fn counts_fit(netlist: &[u8], n: u16) -> bool
    ensures { result ≡ every (count_fits netlist.now) n }
{
    (0..n).all(|node| count_fits(netlist, node))
}

// What a node's pins name stands below this: a flip-flop's pin names any node, another node's a smaller number.
fn source_limit(netlist: &[u8], node: u16) -> u16
    ensures { result ≡ cond (is_flip_flop (kind_of netlist.now node)) (node_count netlist.now) node }
{
    if is_of_kind(netlist, node, Kind::FlipFlop) {
        node_count(netlist)
    } else {
        node
    }
}

// Whether a pin names a source that it may name: below the node's limit, and no output.
#[tactic(auto, unfolding(crate::specs::Netlist::source_allowed))]
fn source_allowed(netlist: &[u8], limit: u16, node: u16, pin: u16) -> bool
    requires { limit ≡ cond (is_flip_flop (kind_of netlist.now node)) (node_count netlist.now) node }
    ensures { result ≡ source_allowed netlist.now node pin }
{
    let source = source_of(netlist, node, pin);
    source < limit && !is_of_kind(netlist, source, Kind::Output)
}

// Whether each of a node's pins names a source that it may name.
fn sources_allowed(netlist: &[u8], node: u16) -> bool
    ensures { result ≡ sources_allowed netlist.now node }
{
    let limit = source_limit(netlist, node);
    (0..length_of(netlist, node)).all(|pin| source_allowed(netlist, limit, node, pin))
}

// Whether each pin of the first n nodes names a source that it may name.
fn all_sources_allowed(netlist: &[u8], n: u16) -> bool
    ensures { result ≡ every (sources_allowed netlist.now) n }
{
    (0..n).all(|node| sources_allowed(netlist, node))
}

// Whether the netlist is sound. Each refusal is looked for in the whole netlist before the next.
pub fn read(netlist: &[u8]) -> Result<Size, Refusal>
    ensures { reading_says result ≡ reading netlist.now }
{
    if netlist.len() < 4 {
        return Err(Refusal::NoHead);
    }
    let n = node_count(netlist);
    let p = pin_count(netlist);
    if !sizes_allowed(n, p) {
        return Err(Refusal::SizesNotAllowed);
    }
    if netlist.len() != 4 + 5 * (n as usize) + 2 * (p as usize) {
        return Err(Refusal::LengthWrong);
    }
    if !kinds_known(netlist, n) {
        return Err(Refusal::UnknownKind);
    }
    if !pairs_joined(netlist, n, p) {
        return Err(Refusal::PairsApart);
    }
    if !counts_fit(netlist, n) {
        return Err(Refusal::PinCountUnfit);
    }
    if !all_sources_allowed(netlist, n) {
        return Err(Refusal::SourceNotAllowed);
    }
    Ok(Size { nodes: n, pins: p })
}
