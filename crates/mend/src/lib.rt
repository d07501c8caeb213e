// The call that mends a schedule (§10.14): it computes the counts anew by firing from the root, and lists those that change.
#![tactic(auto)]

mod arcs;
mod measure;
mod places;
mod rows;
mod search;
mod writer;

ghost use Rattle.mended.specs.Call.{MendWritten, MendWithinDone, MendDone};

use encoding::Lengths;
use mended::MendAnswer;
use refusal::Limits;

// Mending without scratch.
pub fn mend_into(net: &[u32], sheet: &[u32], out: &mut [u32], list: &mut [u32]) -> MendAnswer
    ensures { MendWritten net.now sheet.now out.old list.old result out.new list.new }
{
    let measure = measure::measured(net, sheet)?;
    let entries = measure.entries;
    let changes = measure.changes;
    let lengths = Lengths {
        sheet: 2 + 2 * entries,
        list: 1 + 2 * changes,
    };
    lending::output_fault(out.len(), lengths.sheet)?;
    lending::output_fault(list.len(), lengths.list)?;
    let parent = measure.parent;
    writer::write_sheet(net, sheet, parent, entries, out);
    writer::write_list(net, sheet, parent, changes, list);
    Ok(lengths)
}

// Mending under a limit of scratch.
pub fn mend_within(
    limit: usize,
    net: &[u32],
    sheet: &[u32],
    out: &mut [u32],
    list: &mut [u32],
    scratch: &mut [u32],
) -> MendAnswer
    ensures { MendWithinDone limit net.now sheet.now out.old list.old scratch.old result out.new list.new scratch.new }
{
    lending::scratch_fault(limit, scratch.len())?;
    let answer = mend_into(net, sheet, out, list);
    scan::clear_front(scratch, limit);
    answer
}

// The mended schedule and the list of changes: §10.14.
pub fn mend(
    net: &[u32],
    sheet: &[u32],
    out: &mut [u32],
    list: &mut [u32],
    scratch: &mut [u32],
) -> MendAnswer
    ensures { MendDone net.now sheet.now out.old list.old scratch.old result out.new list.new scratch.new }
{
    mend_within(Limits::SCRATCH, net, sheet, out, list, scratch)
}
