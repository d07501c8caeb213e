// The slow engine, made to be read (§10.40, request #111). It answers what the fast one answers. It spreads net and schedule into tables and a grid,
// then reads the words no more and asks one clause after the other. docs/CHEMIST.md walks through it by hand.
#![tactic(auto)]

mod arcs;
mod choices;
mod clauses;
mod counting;
mod page;
mod paths;
mod spreading;

ghost use Rattle.std.specs.Prelude.{◌≡◌, ◌≤◌, length};
ghost use Rattle.plainly.specs.Numbers.{FrontAlone};
ghost use Rattle.plainly.specs.Calls.{slow_answer, SlowDone};

use judge::CheckAnswer;
use page::Page;
use refusal::Limits;

// What is spread of a net, and how many nodes the schedule has: §10.41. Row t of `taken` and of `change` begins at t × 32; `change` is put − taken,
// the incidence matrix of source document 000. A capacity of 0 is none. The grid has a row of 64 for each node: 32 cells of arcs, then 32 counts.
#[derive(Clone, Copy)]
pub struct Spread {
    pub places: usize,
    pub transitions: usize,
    pub nodes: usize,
    pub starts: [u32; 32],
    pub capacities: [u32; 32],
    pub taken: [u32; 1024],
    pub change: [i64; 1024],
}

// Refusals 1 to 9 and 26; then net and schedule are spread and the clauses asked. The grid lies in the front of the scratch, which is not cleared here.
fn answered(net: &[u32], sheet: &[u32], grid: &mut [u32]) -> CheckAnswer
    requires { 8192 ≤ length grid.old }
    ensures value { result ≡ slow_answer net.now sheet.now }
    ensures front_alone { FrontAlone 8192 grid.old grid.new }
{
    graph::check(net, sheet)?;
    let tables = spreading::spread_net(net, sheet[0] as usize);
    spreading::spread_sheet(net, sheet, grid);
    let page = Page {
        tables: &tables,
        grid: &*grid,
    };
    page.judged()
}

// The call: §10.40. Refusal 21 comes first and leaves the scratch alone; after every other answer the scratch is cleared.
pub fn check(net: &[u32], sheet: &[u32], scratch: &mut [u32]) -> CheckAnswer
    ensures { SlowDone net.now sheet.now scratch.old result scratch.new }
{
    lending::scratch_fault(Limits::SCRATCH, scratch.len())?;
    let answer = answered(net, sheet, scratch);
    scan::clear_front(scratch, 8192);
    answer
}
