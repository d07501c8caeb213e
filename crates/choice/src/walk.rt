// One walk along the arcs of the nodes, as long as the keys rise and each node offers one whole choice set: a node's arcs begin where those of the node
// before it end, so nothing is searched.
ghost use Rattle.std.specs.Prelude.{◌≡◌, true, ◌≤◌, ◌<◌, min};
ghost use Rattle.refusal.specs.Limits.{most_nodes, most_transitions};
ghost use Rattle.sequential.specs.Words.{node_count};
ghost use Rattle.graph.specs.Rows.{has_row};
ghost use Rattle.choice.specs.Whole.{RowAt, FirstArc, SetFrom, WholeRow, SetEnds, Offering};
ghost use Rattle.choice.specs.Passing.{Walked};

use refusal::Limits;

// How many nodes the walk has passed, and marks at the await nodes among them.
#[derive(Clone, Copy)]
pub(crate) struct Walk {
    pub(crate) nodes: usize,
    pub(crate) awaits: [u8; 128],
}

// Whether a walk can begin, at the root's first arc.
fn can_walk(net: &[u32], sheet: &[u32]) -> bool
    ensures { result ≡ true → (has_row net.now sheet.now 0 ≡ true) × RowAt sheet.now 0 0 }
{
    if graph::has_row(net, sheet, 0) {
        return table::keys_rise(sheet, 2, sheet[1] as usize);
    }
    false
}

// For each choice set, at its least transition, the transition after its last member.
fn set_ends(leaders: &[u32; 32], transitions: usize) -> [u32; 32]
    requires { transitions ≤ most_transitions }
    ensures { SetEnds leaders.now transitions result }
{
    let mut ends = [0u32; 32];
    for t in 0..transitions {
        let c = leaders[t];
        if c < Limits::TRANSITIONS {
            ends[c as usize] = t as u32 + 1;
        }
    }
    ends
}

// The transition of a row's first arc if it is the least of its choice set; else 32, and then the row is not one whole choice set.
fn first_member(
    sheet: &[u32],
    leaders: &[u32; 32],
    transitions: usize,
    first: u32,
    start: usize,
) -> usize
    requires row_at { RowAt sheet.now first start }
    requires transitions_le_most_transitions { transitions ≤ most_transitions }
    ensures { result < transitions → FirstArc sheet.now leaders.now first start result }
{
    if sheet[1] as usize <= start {
        return 32;
    }
    let c = (sheet[2 + start] - first) as usize;
    if transitions <= c {
        return 32;
    }
    if leaders[c] != c as u32 {
        return 32;
    }
    c
}

// The entry behind a row whose arcs are one for each member of the choice set from c to before `end`, and no others; 0 if they are not.
fn whole_end(
    sheet: &[u32],
    leaders: &[u32; 32],
    transitions: usize,
    first: u32,
    start: usize,
    c: usize,
    end: usize,
) -> usize
    requires row_at { RowAt sheet.now first start × FirstArc sheet.now leaders.now first start c }
    requires set_from { SetFrom leaders.now transitions c end }
    ensures { 0 < result → WholeRow sheet.now leaders.now transitions first c result }
{
    let entries = sheet[1] as usize;
    let mut i = start + 1;
    for t in c + 1..end {
        if leaders[t] == c as u32 {
            if entries <= i {
                return 0;
            }
            if sheet[2 + i] != first + t as u32 {
                return 0;
            }
            i += 1;
        }
    }
    if entries <= i {
        return i;
    }
    if sheet[2 + i] < first + transitions as u32 {
        return 0;
    }
    i
}

// Walks as far as it can. `nodes` is V, or 128 if V is above that limit.
pub(crate) fn walked(
    net: &[u32],
    sheet: &[u32],
    leaders: &[u32; 32],
    source: u32,
    transitions: usize,
    nodes: usize,
) -> Walk
    requires offering { Offering net.now leaders.now transitions }
    requires nodes_value { nodes ≡ min (node_count sheet.now) most_nodes }
    ensures { Walked net.now sheet.now leaders.now source transitions nodes result.awaits result.nodes }
{
    let mut awaits = [0u8; 128];
    if !can_walk(net, sheet) {
        return Walk { nodes: 0, awaits };
    }
    let ends = set_ends(leaders, transitions);
    let mut first = 0;
    let mut start = 0;
    for n in 0..nodes {
        let c = first_member(sheet, leaders, transitions, first, start);
        if transitions <= c {
            return Walk { nodes: n, awaits };
        }
        let next = whole_end(
            sheet,
            leaders,
            transitions,
            first,
            start,
            c,
            ends[c] as usize,
        );
        if next == 0 {
            return Walk { nodes: n, awaits };
        }
        awaits[n] = super::mark_if(c as u32 == source);
        first += transitions as u32;
        start = next;
    }
    Walk { nodes, awaits }
}
