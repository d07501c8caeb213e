// What every call asks of the buffers that it is lent: enough scratch, before all other checks, and room for its result, after all others (§7.54);
// and what a call answers that is lent several schedules.
#![tactic(auto)]

ghost use Rattle.std.specs.Prelude.{◌≡◌};
ghost use Rattle.lending.specs.Call.{scratch_fault, room_fault};
ghost use Rattle.lending.specs.Fault.{unnamed, plain_told, sheet_index};

use refusal::{Numbers, Position, Reason, Refusal, Verdict};

// A refusal, and the index of the schedule that it is of, where several are lent (§8.4).
#[derive(Clone, Copy, Debug, PartialEq, Eq)]
pub struct Fault {
    pub refusal: Refusal,
    pub sheet: Option<u32>,
}

// A refusal that names no schedule.
impl From<Refusal> for Fault {
    ghost from_gives = { λ refusal fault. fault ≡ unnamed refusal };

    fn from(refusal: Refusal) -> Fault {
        Fault {
            refusal,
            sheet: None,
        }
    }
}

// The plain numbers of an answer whose refusal can name a schedule: §8.1, §8.3.
pub fn plain<A: Numbers>(answer: Result<A, Fault>) -> [u64; 6]
    ensures { result ≡ plain_told A.numbers answer }
{
    refusal::plain(answer.map_err(|fault| fault.refusal))
}

// The index of the refused schedule as a plain number, 0 if nothing is refused or no schedule is named: §8.4.
pub fn sheet_index<A>(answer: &Result<A, Fault>) -> u64
    ensures { result ≡ sheet_index answer.now }
{
    match answer {
        Ok(_) => 0,
        Err(fault) => refusal::plain_index(fault.sheet),
    }
}

// Refusal 21 (§7.21, §9.2): fewer words of scratch are lent than the call's limit.
pub fn scratch_fault(limit: usize, lent: usize) -> Verdict
    ensures { result ≡ scratch_fault limit lent }
{
    if lent < limit {
        return refusal::refuse(Reason::SmallScratch, Position::Nothing);
    }
    Ok(())
}

// Refusal 22 (§7.22, §9.6): an output buffer has fewer words than the result.
pub fn output_fault(lent: usize, needed: usize) -> Verdict
    ensures { result ≡ room_fault lent needed }
{
    if lent < needed {
        return refusal::refuse(Reason::SmallOutput, Position::Nothing);
    }
    Ok(())
}
