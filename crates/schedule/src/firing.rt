// Firing along the arcs of an accepted schedule: a walker's single step, and a list of transitions from node 0.
ghost use Rattle.std.specs.Prelude.{◌≡◌, Ok};
ghost use Rattle.refusal.specs.Verdict.{verdict_of};
ghost use Rattle.sequential.specs.Petri.{petri_net};
ghost use Rattle.sequential.specs.Check.{schedule_reply};
ghost use Rattle.graph.specs.Readable.{Readable};
ghost use Rattle.schedule.specs.Firing.{walker_fault, FollowedTo};
ghost use Rattle.schedule.specs.Calls.{StepDone};

use super::{Fired, Ran, RunAnswer, Step, Walker};
use refusal::{Position, Reason, Refusal, Verdict};

// Refusals 18 and 19.
fn walker_fault(walker: Walker, net: &[u32], sheet: &[u32]) -> Verdict
    requires { Readable net.now sheet.now }
    ensures { result ≡ verdict_of (walker_fault (petri_net net.now) sheet.now walker) }
{
    let n = walker.node;
    let counts = walker.counts;
    if sheet[0] <= n {
        return refusal::refuse(Reason::NoSuchNode, Position::Nothing);
    }
    let held = graph::marking(net, sheet, n);
    for p in 0..Walker::PLACES {
        if counts[p] != held[p] {
            return refusal::refuse(Reason::WrongCounts, Position::Place(p));
        }
    }
    Ok(())
}

// A single firing: refusals 18 to 20 (§7.58), or the walker that follows. The target's counts are what firing gives (§6.6).
pub(crate) fn step(walker: Walker, net: &[u32], sheet: &[u32], t: u32) -> Fired
    requires { schedule_reply net.now sheet.now ≡ Ok tt }
    ensures { StepDone net.now sheet.now walker t result.answer result.next }
{
    if let Err(r) = walker_fault(walker, net, sheet) {
        return Fired {
            answer: Err(r),
            next: walker,
        };
    }
    match graph::arc(net, sheet, walker.node, t) {
        None => Fired {
            answer: Err(Refusal {
                reason: Reason::NotOffered,
                at: Position::Nothing,
            }),
            next: walker,
        },
        Some(i) => {
            let m = graph::value(sheet, i);
            let counts = graph::marking(net, sheet, m);
            Fired {
                answer: Ok(Step { entry: i as u32 }),
                next: Walker { node: m, counts },
            }
        }
    }
}

// Follows a list of transitions from node 0, or refuses the first firing that is not offered: §7.58.
pub(crate) fn follow(net: &[u32], sheet: &[u32], firings: &[u32]) -> RunAnswer
    requires { Readable net.now sheet.now }
    ensures { FollowedTo (petri_net net.now) sheet.now firings.now result }
{
    let mut node = 0;
    let mut entry = None;
    for i in 0..firings.len() {
        let Some(e) = graph::arc(net, sheet, node, firings[i]) else {
            return Err(Refusal {
                reason: Reason::NotOffered,
                at: Position::Record(i),
            });
        };
        node = graph::value(sheet, e);
        entry = Some(e as u32);
    }
    Ok(Ran {
        fired: firings.len(),
        node,
        entry,
    })
}
