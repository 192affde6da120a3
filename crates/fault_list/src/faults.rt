// A circuit's fault list: by node, site, then stuck value. A node's pins come before the node itself.
ghost use Rattle.std.specs.Prelude.{◌≡◌, ◌≤◌, length};
ghost use Rattle.netlist.specs.Netlist.{net_of};
ghost use Rattle.fault_list.specs.Faults.{first_of, first_site, site_after};
ghost use Rattle.fault_list.specs.Inner.Walk.{listed, named, next_fault, pin_numbers};

use circuit::{Fault, Site};

// A site is written as a byte, and 255 is the node itself: that leaves so many numbers for pins.
const PIN_NUMBERS: u16 = 255;

// The first site of a node with so many pins: any number of them, as the netlist says it. `site_after` is a
// function of its own: it adds one to a pin's number, so its pins must be few enough for a byte.
fn first_site(count: u16) -> Site
    ensures { result ≡ first_site count }
{
    if 0 < count {
        return Site::Pin(0);
    }
    Site::Whole
}

// The site after a pin of a node with so many pins.
fn site_after(count: u16, pin: u8) -> Site
    requires { count ≤ pin_numbers }
    ensures { result ≡ site_after count pin }
{
    if (pin as u16) + 1 < count {
        return Site::Pin(pin + 1);
    }
    Site::Whole
}

// How many of a node's pins have a number that a site can be written with.
fn named_pins(netlist: &[u8], node: u16) -> u16
    ensures { result ≡ length ((named (net_of netlist.now)).pins node) }
{
    netlist::length_of(netlist, node).min(PIN_NUMBERS)
}

// The first fault of a node.
pub fn first_of(netlist: &[u8], node: u16) -> Fault
    ensures { result ≡ first_of (net_of netlist.now) node }
{
    let site = first_site(netlist::length_of(netlist, node));
    Fault {
        node,
        site,
        stuck: 0,
    }
}

// The fault that follows. Behind the last comes one of a node that the circuit does not have, and there
// the list ends: it is followed by itself.
#[tactic(auto, unfolding(crate::specs::Inner::Walk::next_fault, crate::specs::Faults::follows_at, crate::specs::Faults::behind_site, netlist::specs::Netlist::net_of))]
pub fn fault_after(netlist: &[u8], fault: Fault) -> Fault
    ensures { result ≡ next_fault (net_of netlist.now) fault }
{
    let node = fault.node;
    if netlist::node_count(netlist) <= node {
        return fault;
    }
    if fault.stuck == 0 {
        return Fault { stuck: 1, ..fault };
    }
    match fault.site {
        Site::Pin(pin) => {
            let next = site_after(named_pins(netlist, node), pin);
            Fault {
                node,
                site: next,
                stuck: 0,
            }
        }
        Site::Whole => first_of(netlist, node + 1),
    }
}

// The fault that follows in the list, none behind the last.
#[tactic(auto, unfolding(netlist::specs::Netlist::net_of))]
pub fn listed_after(netlist: &[u8], fault: Fault) -> Option<Fault>
    ensures { result ≡ listed (net_of netlist.now) (next_fault (net_of netlist.now) fault) }
{
    let next = fault_after(netlist, fault);
    (next.node < netlist::node_count(netlist)).then_some(next)
}
