// Refusals 6 to 9: the words of a schedule, in the order of §7.56.
ghost use Rattle.std.specs.Prelude.{◌≡◌, ◌<◌, Ok};
ghost use Rattle.scan.specs.Scan.{first};
ghost use Rattle.refusal.specs.Verdict.{verdict_of};
ghost use Rattle.net.specs.Check.{net_reply};
ghost use Rattle.sequential.specs.Petri.{petri_net};
ghost use Rattle.sequential.specs.Words.{entry_count};
ghost use Rattle.sequential.specs.Check.{sizes_pass, shape_fault, entry_fault};
ghost use Rattle.graph.specs.Readable.{value_test, fault_by};

use super::shaped::Shaped;
use super::word_pass;
use refusal::{Limits, Position, Reason, Verdict};

// Whether V and K are within their limits (§3.2).
fn sizes_pass(nodes: u32, entries: u32) -> bool
    ensures { result ≡ sizes_pass nodes entries }
{
    if nodes < 1 {
        return false;
    }
    if Limits::NODES < nodes {
        return false;
    }
    entries <= Limits::ENTRIES
}

// Refusals 6 and 7.
pub(crate) fn shape_fault(sheet: &[u32]) -> Verdict
    ensures { result ≡ verdict_of (shape_fault sheet.now) }
{
    if sheet.len() < 2 {
        return refusal::refuse(Reason::ScheduleLength, Position::Nothing);
    }
    let entries = sheet[1];
    if !sizes_pass(sheet[0], entries) {
        return refusal::refuse(Reason::ScheduleSize, Position::Nothing);
    }
    if sheet.len() != 2 + 2 * (entries as usize) {
        return refusal::refuse(Reason::ScheduleLength, Position::Nothing);
    }
    Ok(())
}

// Whether the value of entry i breaks §3.5 or, if `counts` is true, §3.6.
fn value_fails(sheet: Shaped<'_>, arcs: u32, counts: bool, i: usize) -> bool
    requires { i < entry_count sheet.words.now }
    ensures { result ≡ value_test counts sheet.entry.words.now arcs i }
{
    let entries = sheet.words[1] as usize;
    let value = sheet.words[2 + entries + i];
    if sheet.words[2 + i] < arcs {
        return sheet.words[0] <= value;
    }
    if !counts {
        return false;
    }
    if value == 0 {
        return true;
    }
    Limits::COUNT < value
}

// Refusals 8 and 9 at entry i.
fn entry_fault(sheet: Shaped<'_>, arcs: u32, limit: u32, counts: bool, i: usize) -> Verdict
    requires { i < entry_count sheet.words.now }
    ensures { result ≡ verdict_of (entry_fault sheet.entry.words.now limit (value_test counts sheet.entry.words.now arcs) i) }
{
    if table::key_fails(sheet.words, 2, limit, i) {
        return refusal::refuse(Reason::ScheduleOrder, Position::Entry(i));
    }
    if value_fails(sheet, arcs, counts, i) {
        return refusal::refuse(Reason::ScheduleValue, Position::Entry(i));
    }
    Ok(())
}

// Refusals 8 and 9: one quick test of all entries, and only if that fails entry by entry.
fn entries_fault(sheet: Shaped<'_>, arcs: u32, limit: u32, counts: bool) -> Verdict
    ensures { result ≡ verdict_of (first (entry_fault sheet.entry.words.now limit (value_test counts sheet.entry.words.now arcs)) (entry_count sheet.entry.words.now)) }
{
    if word_pass::entries_pass(sheet, arcs, limit, counts) {
        return Ok(());
    }
    let entries = sheet.words[1] as usize;
    for i in 0..entries {
        entry_fault(sheet, arcs, limit, counts, i)?;
    }
    Ok(())
}

// Refusals 6 to 9. `counts` says whether 9 is asked of counts as well as of arcs.
pub(crate) fn words_fault(net: &[u32], sheet: &[u32], counts: bool) -> Verdict
    requires { net_reply net.now ≡ Ok tt }
    ensures { result ≡ verdict_of (fault_by counts (petri_net net.now) sheet.now) }
{
    let shaped = Shaped::read(sheet)?;
    let nodes = shaped.words[0];
    let transitions = net::transitions(net);
    let arcs = nodes * transitions;
    let limit = nodes * (transitions + net::places(net));
    entries_fault(shaped, arcs, limit, counts)
}
