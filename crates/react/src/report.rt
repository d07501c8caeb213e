// The report (§10.48): a pair of times for each await node with each source, written row by row.
ghost use Rattle.std.specs.Prelude.{◌≡◌, [], ◌∷◌};
ghost use Rattle.scan.specs.Placed.{placed};
ghost use Rattle.encoding.specs.Rows.{Appended};
ghost use Rattle.reaction.specs.Call.{report_words};
ghost use Rattle.react.specs.Report.{row_words, SizeTold, Writable};

use super::case::Case;
use super::rows::Schedule;
use super::times::Timed;

// The length of the report in words: a pair for each arc of an await node.
pub(crate) fn size(schedule: &Schedule) -> usize
    ensures { SizeTold schedule.now.net.now schedule.now.sheet.now result }
{
    let mut size = 0;
    for n in 0..schedule.nodes() {
        if schedule.is_await(n) {
            size += 2 * (schedule.end(n) - schedule.start(n));
        }
    }
    size
}

fn write_pair(best: u32, worst: u32, out: &mut [u32], at: usize) -> usize
    ensures { Appended out.old at (best ∷ worst ∷ []) result out.new }
{
    let next = encoding::put(best, out, at);
    encoding::put(worst, out, next)
}

// Writes the pairs of one await node from an index on, and answers the index after them.
fn write_row(
    timed: &Timed,
    best: &[u32; 128],
    worst: &[u32; 128],
    n: usize,
    out: &mut [u32],
    at: usize,
) -> usize
    requires { Writable timed.now.schedule.now.net.now timed.now.schedule.now.sheet.now timed.now.durations.words.now best.now worst.now n }
    ensures { Appended out.old at (row_words timed.now.schedule.now.net.now timed.now.schedule.now.sheet.now timed.now.durations.words.now n) result out.new }
{
    let schedule = timed.schedule;
    let first = schedule.first_key(n);
    let mut next = at;
    for i in schedule.start(n)..schedule.end(n) {
        let t = schedule.transition(first, i);
        let m = schedule.leads_to(i);
        let early = timed.durations.lasts(Case::Best, t) + best[m];
        let late = timed.durations.lasts(Case::Worst, t) + worst[m];
        next = write_pair(early, late, out, next);
    }
    next
}

// Writes the whole report: the rows of all await nodes.
pub(crate) fn write(timed: &Timed, out: &mut [u32])
    ensures { out.new ≡ placed out.old 0 (report_words timed.now.schedule.now.net.now timed.now.schedule.now.sheet.now timed.now.durations.words.now) }
{
    let best = timed.times(Case::Best);
    let worst = timed.times(Case::Worst);
    let mut next = 0;
    for n in 0..timed.schedule.nodes() {
        if timed.schedule.is_await(n) {
            next = write_row(timed, &best, &worst, n, out, next);
        }
    }
}
