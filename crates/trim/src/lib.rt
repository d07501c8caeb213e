// The call that trims a schedule (§10.35): nodes that the root does not reach are dropped, and the kept ones are numbered anew without gaps.
#![tactic(auto)]

mod numbers;
mod writer;

ghost use Rattle.trimmed.specs.Call.{TrimWritten, TrimDone};

use refusal::Limits;
use trimmed::TrimAnswer;

// Trimming without scratch.
pub fn trim_into(net: &[u32], sheet: &[u32], out: &mut [u32], list: &mut [u32]) -> TrimAnswer
    ensures { TrimWritten net.now sheet.now out.old list.old result out.new list.new }
{
    graph::check(net, sheet)?;
    let new = numbers::kept(net, sheet);
    writer::write(net, sheet, new, out, list)
}

// Trimming: writes the trimmed schedule, and the old number of each new node.
pub fn trim(
    net: &[u32],
    sheet: &[u32],
    out: &mut [u32],
    list: &mut [u32],
    scratch: &mut [u32],
) -> TrimAnswer
    ensures { TrimDone net.now sheet.now out.old list.old scratch.old result out.new list.new scratch.new }
{
    lending::scratch_fault(Limits::SCRATCH, scratch.len())?;
    let answer = trim_into(net, sheet, out, list);
    scan::clear_front(scratch, Limits::SCRATCH);
    answer
}
