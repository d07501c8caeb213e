// The replay of a log of firings (§10.10, §10.11): each firing is followed along the arcs, and what they take and put is added up by place.
#![tactic(auto)]

mod follow;
mod look_up;
mod tally;

ghost use Rattle.std.specs.Prelude.{◌≡◌};
ghost use Rattle.refusal.specs.Verdict.{verdict_of};
ghost use Rattle.replay.specs.Tests.{log_fault};
ghost use Rattle.replay.specs.Plain.{outcome_numbers};
ghost use Rattle.replay.specs.Calls.{LogChecked, ReplayWritten, ReplayWithinDone, ReplayDone};

use refusal::{Limits, Numbers, Position, Reason, Refusal, Verdict};

// What the firings of a log take and put over all places: §10.11.
#[derive(Clone, Copy)]
pub struct Totals {
    pub taken: u64,
    pub put: u64,
}

// The totals, and the entry of the last arc: §10.13.
#[derive(Clone, Copy)]
pub struct Outcome {
    pub totals: Totals,
    pub entry: Option<u32>,
}

impl Numbers for Outcome {
    ghost numbers = { outcome_numbers };

    fn numbers(self) -> [u64; 3] {
        let totals = self.totals;
        [totals.taken, totals.put, refusal::plain_index(self.entry)]
    }
}

// The answer of a replay.
pub type ReplayAnswer = Result<Outcome, Refusal>;

// Refusal 23. N is held to its limit before it is compared with the length, so that the product fits.
fn log_fault(log: &[u32]) -> Verdict
    ensures { result ≡ verdict_of (log_fault log.now) }
{
    if log.len() < 1 {
        return refusal::refuse(Reason::LogShape, Position::Nothing);
    }
    let n = log[0];
    if Limits::FIRINGS < n {
        return refusal::refuse(Reason::LogShape, Position::Nothing);
    }
    if log.len() != 1 + 2 * (n as usize) {
        return refusal::refuse(Reason::LogShape, Position::Nothing);
    }
    Ok(())
}

// Refusals 1 to 17, 26 and 27, and then 23, 20 and 24; or the entry of the last arc.
fn checked(net: &[u32], sheet: &[u32], log: &[u32]) -> Result<Option<u32>, Refusal>
    ensures { LogChecked net.now sheet.now log.now result }
{
    judge::verdict(net, sheet)?;
    log_fault(log)?;
    follow::followed(net, sheet, log)
}

// The replay without scratch.
pub fn replay_into(
    net: &[u32],
    sheet: &[u32],
    log: &[u32],
    taken: &mut [u64],
    put: &mut [u64],
) -> ReplayAnswer
    ensures { ReplayWritten net.now sheet.now log.now taken.old put.old result taken.new put.new }
{
    let entry = checked(net, sheet, log)?;
    let places = net::places(net) as usize;
    lending::output_fault(taken.len(), places)?;
    lending::output_fault(put.len(), places)?;
    let totals = tally::totals_into(net, log, taken, put);
    Ok(Outcome { totals, entry })
}

// The replay of a log under a limit of scratch.
pub fn replay_within(
    limit: usize,
    net: &[u32],
    sheet: &[u32],
    log: &[u32],
    taken: &mut [u64],
    put: &mut [u64],
    scratch: &mut [u32],
) -> ReplayAnswer
    ensures { ReplayWithinDone limit net.now sheet.now log.now taken.old put.old scratch.old result taken.new put.new scratch.new }
{
    lending::scratch_fault(limit, scratch.len())?;
    let answer = replay_into(net, sheet, log, taken, put);
    scan::clear_front(scratch, limit);
    answer
}

// The replay of a log: §10.11.
pub fn replay(
    net: &[u32],
    sheet: &[u32],
    log: &[u32],
    taken: &mut [u64],
    put: &mut [u64],
    scratch: &mut [u32],
) -> ReplayAnswer
    ensures { ReplayDone net.now sheet.now log.now taken.old put.old scratch.old result taken.new put.new scratch.new }
{
    replay_within(Limits::SCRATCH, net, sheet, log, taken, put, scratch)
}
