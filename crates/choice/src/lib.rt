// What the nodes of a schedule offer: refusals 11 to 13, and the await nodes. Only arcs are looked at, not counts.
#![tactic(auto)]

mod choice_sets;
mod offers;
mod walk;

ghost use Rattle.std.specs.Prelude.{◌≡◌, min};
ghost use Rattle.scan.specs.Scan.{bit};
ghost use Rattle.refusal.specs.Limits.{most_nodes};
ghost use Rattle.sequential.specs.Words.{node_count};
ghost use Rattle.choice.specs.Nodes.{nodes_reply, task_nodes_reply};

use offers::Offer;
use refusal::{Limits, Position, Reason, Refusal};

// V, or 128 if V is above that limit.
fn node_count(sheet: &[u32]) -> usize
    ensures { result ≡ min (node_count sheet.now) most_nodes }
{
    if sheet.len() < 1 {
        return 0;
    }
    choice_sets::at_most(sheet[0], Limits::NODES)
}

pub(crate) fn mark_if(set: bool) -> u8
    ensures { result ≡ bit set }
{
    if set {
        return 1;
    }
    0
}

// Refusals 11 and 12 node by node (§6.3), and then 13 (§6.4), on any words. If nothing is refused, 1 at each await node (§5.4).
pub fn nodes(net: &[u32], sheet: &[u32]) -> Result<[u8; 128], Refusal>
    ensures { result ≡ nodes_reply net.now sheet.now }
{
    task_nodes(net, Limits::TRANSITIONS, sheet)
}

// The same after all sources but s are removed: a node with an arc by a removed source is refused by 12. If s is no source, none is removed.
pub fn task_nodes(net: &[u32], s: u32, sheet: &[u32]) -> Result<[u8; 128], Refusal>
    ensures { result ≡ task_nodes_reply net.now s sheet.now }
{
    let choices = choice_sets::choices_only(net, s);
    let leaders = choices.leaders;
    let source = choices.source;
    let transitions = choice_sets::transitions(net);
    let nodes = node_count(sheet);
    let walk = walk::walked(net, sheet, &leaders, source, transitions, nodes);
    let mut awaits = walk.awaits;
    // where the walk stopped: a node that is refused, or words whose keys do not rise
    for n in walk.nodes..nodes {
        let offer = offers::offer_at(net, sheet, &leaders, transitions, n as u32);
        match offer {
            Offer::Nothing => {
                return Err(Refusal {
                    reason: Reason::NoArc,
                    at: Position::Node(n),
                });
            }
            Offer::Torn => {
                return Err(Refusal {
                    reason: Reason::NotOneChoiceSet,
                    at: Position::Node(n),
                });
            }
            Offer::Whole(c) => {
                awaits[n] = mark_if(c == source);
            }
        }
    }
    if awaits[0] == 0 {
        return Err(Refusal {
            reason: Reason::RootNotAwait,
            at: Position::Node(0),
        });
    }
    Ok(awaits)
}
