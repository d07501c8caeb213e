// The call that compares two schedules of a net (§10.50): their minimal forms are written, each to a buffer of its own, and then compared word by word.
#![tactic(auto)]

ghost use Rattle.std.specs.Prelude.{◌≡◌, ◌≤◌, ◌∷◌, [], length, Err};
ghost use Rattle.scan.specs.Scan.{bit};
ghost use Rattle.refusal.specs.Refusal.{reason_number};
ghost use Rattle.compare.specs.Compare.{of_schedule, refused_by, same_fronts, CompareWritten};
ghost use Rattle.compare.specs.Means.{CompareDone};

use lending::Fault;
use refusal::{Limits, Numbers, Reason, Refusal};

// What a comparison tells: the lengths in words of both minimal forms, and whether the forms are equal.
#[derive(Clone, Copy, Debug, PartialEq, Eq)]
pub struct Comparison {
    pub first: usize,
    pub second: usize,
    pub same: bool,
}

// Both lengths, and 1 if the forms are equal.
impl Numbers for Comparison {
    ghost numbers = { λ c. c.first ∷ c.second ∷ bit c.same ∷ [] };

    fn numbers(self) -> [u64; 3] {
        [self.first as u64, self.second as u64, u64::from(self.same)]
    }
}

// What comparing answers: what it tells, or a refusal and the index of the schedule that is refused.
pub type CompareAnswer = Result<Comparison, Fault>;

// The refusals of a schedule: §7.6 to §7.17 and §7.27.
fn of_schedule(reason: Reason) -> bool
    ensures { result ≡ of_schedule (reason_number reason) }
{
    matches!(
        reason,
        Reason::ScheduleLength
            | Reason::ScheduleSize
            | Reason::ScheduleOrder
            | Reason::ScheduleValue
            | Reason::WrongStart
            | Reason::NoArc
            | Reason::NotOneChoiceSet
            | Reason::RootNotAwait
            | Reason::NotHeld
            | Reason::WrongTarget
            | Reason::NotReached
            | Reason::NoPathToAwait
            | Reason::OverCapacity
    )
}

// A refusal that names a schedule, if it is one about a schedule.
fn fault(refusal: Refusal, sheet: u32) -> Fault
    ensures { Err result ≡ refused_by refusal sheet }
{
    Fault {
        refusal,
        sheet: of_schedule(refusal.reason).then_some(sheet),
    }
}

// Equal in length and word for word: §11.8. The loop has no early exit, so that several words are compared at once.
fn same_fronts(one: &[u32], two: &[u32], first: usize, second: usize) -> bool
    requires { (first ≤ length one.now) × (second ≤ length two.now) }
    ensures { result ≡ same_fronts one.now two.now first second }
{
    if first != second {
        return false;
    }
    let mut alike = true;
    for i in 0..first {
        if one[i] != two[i] {
            alike = false;
        }
    }
    alike
}

// The comparison without scratch.
pub fn compare_into(
    net: &[u32],
    first: &[u32],
    second: &[u32],
    one: &mut [u32],
    two: &mut [u32],
) -> CompareAnswer
    ensures { CompareWritten net.now first.now second.now one.old two.old result one.new two.new }
{
    judge::verdict(net, first).map_err(|refusal| fault(refusal, 0))?;
    judge::verdict(net, second).map_err(|refusal| fault(refusal, 1))?;
    let lengths = minimize::forms_of(net, first, second, one, two).map_err(|refusal| fault(
        refusal, 1,
    ))?;
    let same = same_fronts(one, two, lengths.first, lengths.second);
    Ok(Comparison {
        first: lengths.first,
        second: lengths.second,
        same,
    })
}

// Whether two schedules allow the same lists, by their minimal forms: §10.50, §10.51.
pub fn compare(
    net: &[u32],
    first: &[u32],
    second: &[u32],
    one: &mut [u32],
    two: &mut [u32],
    scratch: &mut [u32],
) -> CompareAnswer
    ensures { CompareDone net.now first.now second.now one.old two.old scratch.old result one.new two.new scratch.new }
{
    lending::scratch_fault(Limits::SCRATCH, scratch.len())?;
    let answer = compare_into(net, first, second, one, two);
    scan::clear_front(scratch, Limits::SCRATCH);
    answer
}
