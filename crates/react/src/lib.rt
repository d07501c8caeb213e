// The call that reports reaction times (§10.46): the checks, the best and the worst time of every node, and the report.
#![tactic(auto)]

mod backs;
mod case;
mod clean;
mod durations;
mod loops;
mod report;
mod rows;
mod times;

ghost use Rattle.std.specs.Prelude.{◌≡◌, Ok};
ghost use Rattle.reaction.specs.Call.{ReactionWritten, ReactionDone};
ghost use Rattle.react.specs.Checked.{checked_verdict};

use durations::Durations;
use reaction::ReactionAnswer;
use refusal::{Limits, Verdict};
use rows::Schedule;
use times::Timed;

// Refusals 1 to 17, 26 and 27, then 32, in the order of §7.66.
fn checked(net: &[u32], sheet: &[u32], durations: &[u32]) -> Verdict
    ensures { result ≡ checked_verdict net.now sheet.now durations.now }
{
    judge::verdict(net, sheet)?;
    durations::durations_fault(durations, net::transitions(net) as usize)
}

// After these checks: refusal 33, then 22, then the report is written.
fn reported<'a>(
    net: &'a [u32],
    sheet: &'a [u32],
    durations: &'a [u32],
    out: &mut [u32],
) -> ReactionAnswer
    requires { checked_verdict net.now sheet.now durations.now ≡ Ok tt }
    ensures { ReactionWritten net.now sheet.now durations.now out.old result out.new }
{
    let starts = rows::starts(net, sheet);
    let awaits = choice::nodes(net, sheet)?;
    let schedule = Schedule {
        net,
        sheet,
        starts,
        awaits,
    };
    loops::loops_fault(&schedule)?;
    let size = report::size(&schedule);
    lending::output_fault(out.len(), size)?;
    let durations = Durations {
        words: durations,
        transitions: net::transitions(net) as usize,
    };
    let timed = Timed {
        schedule: &schedule,
        durations,
    };
    report::write(&timed, out);
    Ok(size)
}

// Reaction times (§10.46) without scratch.
pub fn reaction_into(
    net: &[u32],
    sheet: &[u32],
    durations: &[u32],
    out: &mut [u32],
) -> ReactionAnswer
    ensures { ReactionWritten net.now sheet.now durations.now out.old result out.new }
{
    checked(net, sheet, durations)?;
    reported(net, sheet, durations, out)
}

// Reaction times: for each await node and each source, the times at best and at worst until the next await node.
pub fn reactions(
    net: &[u32],
    sheet: &[u32],
    durations: &[u32],
    out: &mut [u32],
    scratch: &mut [u32],
) -> ReactionAnswer
    ensures { ReactionDone net.now sheet.now durations.now out.old scratch.old result out.new scratch.new }
{
    lending::scratch_fault(Limits::SCRATCH, scratch.len())?;
    let answer = reaction_into(net, sheet, durations, out);
    scan::clear_front(scratch, Limits::SCRATCH);
    answer
}
