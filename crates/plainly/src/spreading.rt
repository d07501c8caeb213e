// Spreading: the net into tables, the schedule into a grid. Each cell is looked up by its key, and every cell is written (§10.41).
ghost use Rattle.std.specs.Prelude.{◌≡◌, ◌≤◌, ◌<◌, length, pos, ◌-ℤ◌, Ok};
ghost use Rattle.net.specs.Check.{net_reply};
ghost use Rattle.sequential.specs.Petri.{petri_net};
ghost use Rattle.sequential.specs.Words.{arc, count_at};
ghost use Rattle.graph.specs.Readable.{Readable};
ghost use Rattle.plainly.specs.Numbers.{value_of, arc_code, cell_of, NetSpread, GridCells, Keyed};

use super::Spread;

// What firing changes at a place: a signed number.
fn change_of(put: u32, taken: u32) -> i64
    ensures { result ≡ pos put -ℤ pos taken }
{
    put as i64 - taken as i64
}

// The net: what places start with, their capacities, what transitions take (§2.5), and put − taken. Cell i is that of transition i / 32 and place i % 32.
pub(crate) fn spread_net(net: &[u32], nodes: usize) -> Spread
    requires { net_reply net.now ≡ Ok tt }
    ensures { NetSpread net.now result × (result.nodes ≡ nodes) }
{
    let starts = net::start_row(net);
    let capacities = net::capacity_row(net);
    let mut taken = [0u32; 1024];
    let mut change = [0i64; 1024];
    for i in 0..1024 {
        let t = (i / 32) as u32;
        let p = (i % 32) as u32;
        let takes = net::taken(net, t, p);
        taken[i] = takes;
        change[i] = change_of(net::put(net, t, p), takes);
    }
    Spread {
        places: net::places(net) as usize,
        transitions: net::transitions(net) as usize,
        nodes,
        starts,
        capacities,
        taken,
        change,
    }
}

// The value of a key, plus `more`; 0 if the key is absent.
fn value_of(sheet: &[u32], key: u32, more: u32) -> u32
    requires { Keyed sheet.now × (more ≤ 1) }
    ensures { result ≡ value_of sheet.now more key }
{
    match table::find(sheet, 2, sheet[1] as usize, key) {
        Some(i) => graph::value(sheet, i) + more,
        None => 0,
    }
}

// The cell of the arc by t from n: 1 more than its target, or 0 if there is none. The key is n × T + t: §3.5.
fn arc_cell(net: &[u32], sheet: &[u32], n: u32, t: u32) -> u32
    requires { Readable net.now sheet.now }
    ensures { result ≡ arc_code (arc (petri_net net.now) sheet.now n t) }
{
    let transitions = net::transitions(net);
    if n < sheet[0] && t < transitions {
        value_of(sheet, n * transitions + t, 1)
    } else {
        0
    }
}

// The count of place p at n. The key is V × T + n × P + p: §3.6.
fn count_cell(net: &[u32], sheet: &[u32], n: u32, p: u32) -> u32
    requires { Readable net.now sheet.now }
    ensures { result ≡ count_at (petri_net net.now) sheet.now n p }
{
    let places = net::places(net);
    if n < sheet[0] && p < places {
        let first = sheet[0] * net::transitions(net);
        value_of(sheet, first + n * places + p, 0)
    } else {
        0
    }
}

// Cell k of the grid: row k / 64, a node; columns 0 to 31 for its arcs, 32 to 63 for its counts.
#[tactic(auto, unfolding(crate::specs::Numbers::cell_of))]
fn cell(net: &[u32], sheet: &[u32], k: usize) -> u32
    requires readable { Readable net.now sheet.now }
    requires k_bound { k < 8192 }
    ensures { result ≡ cell_of (petri_net net.now) sheet.now k }
{
    let row = (k / 64) as u32;
    let column = (k % 64) as u32;
    if column < 32 {
        arc_cell(net, sheet, row, column)
    } else {
        count_cell(net, sheet, row, column - 32)
    }
}

// The schedule: all 128 rows of 64 cells.
pub(crate) fn spread_sheet(net: &[u32], sheet: &[u32], grid: &mut [u32])
    requires readable { Readable net.now sheet.now }
    requires in_bounds { 8192 ≤ length grid.old }
    ensures { GridCells net.now sheet.now grid.old grid.new }
{
    for k in 0..8192 {
        grid[k] = cell(net, sheet, k);
    }
}
