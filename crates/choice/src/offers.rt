// What a node offers, by its row of arcs and the table of choice sets.
ghost use Rattle.std.specs.Prelude.{◌≡◌, ◌≤◌};
ghost use Rattle.scan.specs.Scan.{all, least};
ghost use Rattle.graph.specs.Rows.{arc_entry_row};
ghost use Rattle.choice.specs.Rows.{present};
ghost use Rattle.choice.specs.Choices.{present_as_choice, offer_of};

use refusal::Limits;

// No transition; one whole choice set (§5.3), with its least transition; or anything else.
#[derive(Clone, Copy)]
pub(crate) enum Offer {
    Nothing,
    Whole(u32),
    Torn,
}

// The first transition that has an arc in a row, or the number of transitions.
fn first_present(arcs: [usize; 32], transitions: usize) -> usize
    requires { transitions ≤ 32 }
    ensures { result ≡ least (present arcs) transitions }
{
    for t in 0..transitions {
        if 0 < arcs[t] {
            return t;
        }
    }
    transitions
}

// Whether a row has an arc for each member of the choice set whose least transition is c, and no other arcs.
fn are_choice(arcs: [usize; 32], leaders: [u32; 32], c: u32, transitions: usize) -> bool
    requires { transitions ≤ 32 }
    ensures { result ≡ all (present_as_choice arcs leaders c) transitions }
{
    for t in 0..transitions {
        if (0 < arcs[t]) != (leaders[t] == c) {
            return false;
        }
    }
    true
}

// What a row of arcs offers. If its first arc is by a removed transition, that is not one whole choice set: the transition is in none.
pub(crate) fn offered(arcs: [usize; 32], leaders: [u32; 32], transitions: usize) -> Offer
    requires { transitions ≤ 32 }
    ensures { result ≡ offer_of arcs leaders transitions }
{
    let t = first_present(arcs, transitions);
    if transitions <= t {
        return Offer::Nothing;
    }
    let c = leaders[t];
    if Limits::TRANSITIONS <= c {
        return Offer::Torn;
    }
    if are_choice(arcs, leaders, c, transitions) {
        return Offer::Whole(c);
    }
    Offer::Torn
}

// What node n offers.
pub(crate) fn offer_at(
    net: &[u32],
    sheet: &[u32],
    leaders: &[u32; 32],
    transitions: usize,
    n: u32,
) -> Offer
    requires { transitions ≤ 32 }
    ensures { result ≡ offer_of (arc_entry_row net.now sheet.now n) leaders.now transitions }
{
    offered(graph::arc_entries(net, sheet, n), *leaders, transitions)
}
