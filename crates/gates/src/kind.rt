// What a node's kind decides: how many pins a node has, and what it makes of their values.
ghost use Rattle.std.specs.Prelude.{◌≡◌};
ghost use Rattle.gates.specs.Kind.{rule_of, kind_named, number_of, unit_of, join_of, controlling_of, inverted_if, is_given};
ghost use Rattle.gates.specs.Value.{differ, neg, and₂, or₂, xor₂};

// The most pins of an AND, NAND, OR or NOR.
const MOST_PINS: u16 = 64;

// A value that is neither 0 nor 1 is unknown; this one stands for it. Values are bytes, since they lie in
// the caller's slices, where any byte may stand.
pub const UNKNOWN: u8 = 2;

// What a node is. A kind's number is its place here, counted from 0.
#[derive(Clone, Copy, Debug, PartialEq, Eq)]
pub enum Kind {
    Input,
    Output,
    FlipFlop,
    Buffer,
    Not,
    And,
    Nand,
    Or,
    Nor,
    Xor,
    Xnor,
}

// A number that is no kind's.
#[derive(Clone, Copy, Debug, PartialEq, Eq)]
pub struct UnknownKind(pub u8);

// The function of a node's pins. A wire hands on the value of its only pin.
#[derive(Clone, Copy, Debug, PartialEq, Eq)]
pub enum Gate {
    Wire,
    And,
    Or,
    Xor,
}

// The fewest and the most pins, the function of the pins, and whether its value is inverted.
#[derive(Clone, Copy, Debug, PartialEq, Eq)]
pub struct Rule {
    pub least: u16,
    pub most: u16,
    pub gate: Gate,
    pub inverted: bool,
}

// The kind that a number names.
impl TryFrom<u8> for Kind {
    type Error = UnknownKind;

    ghost try_from_gives = { λ number r. r ≡ kind_named number };

    #[tactic(auto, using(crate::proofs::KindLaws::named_none), unfolding(crate::specs::Kind::kind_named))]
    fn try_from(number: u8) -> Result<Self, UnknownKind> {
        match number {
            0 => Ok(Kind::Input),
            1 => Ok(Kind::Output),
            2 => Ok(Kind::FlipFlop),
            3 => Ok(Kind::Buffer),
            4 => Ok(Kind::Not),
            5 => Ok(Kind::And),
            6 => Ok(Kind::Nand),
            7 => Ok(Kind::Or),
            8 => Ok(Kind::Nor),
            9 => Ok(Kind::Xor),
            10 => Ok(Kind::Xnor),
            _ => Err(UnknownKind(number)),
        }
    }
}

// The number of a kind.
impl From<Kind> for u8 {
    ghost from_gives = { λ kind number. number ≡ number_of kind };

    fn from(kind: Kind) -> u8 {
        kind as u8
    }
}

// The rule of a kind number: how many pins a node of the kind has, and what it makes of their values. No pin
// count fits a number that is no kind's. One match over numbers with ranges, as document 01 asks.
#[tactic(auto, using(crate::proofs::KindLaws::rule_one_pin, crate::proofs::KindLaws::rule_and, crate::proofs::KindLaws::rule_or, crate::proofs::KindLaws::rule_xor), unfolding(crate::specs::Kind::rule_of))]
pub fn rule_of(number: u8) -> Rule
    ensures { result ≡ rule_of number }
{
    let (least, most, gate, inverted) = match number {
        0 => (0, 0, Gate::Wire, false),
        1..=4 => (1, 1, Gate::Wire, number == 4),
        5..=6 => (2, MOST_PINS, Gate::And, number == 6),
        7..=8 => (2, MOST_PINS, Gate::Or, number == 8),
        9..=10 => (2, 2, Gate::Xor, number == 10),
        // no option for this row: no count fits it, so that what counts pins has nothing else to ask
        _ => (1, 0, Gate::Wire, false),
    };
    Rule {
        least,
        most,
        gate,
        inverted,
    }
}

impl Kind {
    // The clock step is given the value of such a node: an input, or a flip-flop's latched value.
    pub fn is_given(self) -> bool
        ensures { result ≡ is_given (number_of self) }
    {
        self == Kind::Input || self == Kind::FlipFlop
    }
}

// The opposite of a value; of an unknown one, unknown.
pub fn negation(v: u8) -> u8
    ensures { result ≡ neg v }
{
    match v {
        0 => 1,
        1 => 0,
        _ => UNKNOWN,
    }
}

// Both values are known, and not the same.
pub fn values_differ(v: u8, w: u8) -> bool
    ensures { result ≡ differ v w }
{
    v < UNKNOWN && (w < UNKNOWN && v != w)
}

// The AND of two values: 0 where either is. It and the OR are two functions, as the definitions have a table
// for each: a constant for the value that settles it would only hide them.
fn and_of(v: u8, w: u8) -> u8
    ensures { result ≡ and₂ v w }
{
    if v == 0 || w == 0 {
        return 0;
    }
    if v == 1 { w } else { UNKNOWN }
}

// The OR of two values: 1 where either is.
fn or_of(v: u8, w: u8) -> u8
    ensures { result ≡ or₂ v w }
{
    if v == 1 || w == 1 {
        return 1;
    }
    if v == 0 { w } else { UNKNOWN }
}

fn xor_of(v: u8, w: u8) -> u8
    ensures { result ≡ xor₂ v w }
{
    match v {
        0 => w,
        1 => negation(w),
        _ => UNKNOWN,
    }
}

// A gate's function of no pins.
pub fn unit_of(gate: Gate) -> u8
    ensures { result ≡ unit_of gate }
{
    match gate {
        Gate::Wire => 0,
        Gate::And => 1,
        Gate::Or => 0,
        Gate::Xor => 0,
    }
}

// A gate's function with one pin more in front: v is that pin's value, w the function of the rest.
pub fn join_of(gate: Gate, v: u8, w: u8) -> u8
    ensures { result ≡ join_of gate v w }
{
    match gate {
        Gate::Wire => v,
        Gate::And => and_of(v, w),
        Gate::Or => or_of(v, w),
        Gate::Xor => xor_of(v, w),
    }
}

// The pin value that settles an AND or an OR by itself. No pin's value settles the others.
pub fn controlling_value(gate: Gate) -> Option<u8>
    ensures { result ≡ controlling_of gate }
{
    match gate {
        Gate::Wire => None,
        Gate::And => Some(0),
        Gate::Or => Some(1),
        Gate::Xor => None,
    }
}

pub fn inverted_if(inverted: bool, v: u8) -> u8
    ensures { result ≡ inverted_if inverted v }
{
    if inverted { negation(v) } else { v }
}
