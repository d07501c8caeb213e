// Follows the firings of a log along the arcs from node 0, and compares each node that is reached with the one that is logged.
ghost use Rattle.sequential.specs.Petri.{petri_net};
ghost use Rattle.graph.specs.Readable.{ArcsReadable};
ghost use Rattle.replay.specs.Calls.{LogFollowed};
ghost use Rattle.replay.specs.Tally.{LogHolds};

use super::look_up;
use refusal::{Position, Reason, Refusal};

// Refusals 20 and 24, firing by firing (§7.60), or the entry of the last arc.
pub(crate) fn followed(net: &[u32], sheet: &[u32], log: &[u32]) -> Result<Option<u32>, Refusal>
    requires arcs_readable { ArcsReadable net.now sheet.now }
    requires log_holds { LogHolds log.now }
    ensures { LogFollowed (petri_net net.now) sheet.now log.now result }
{
    let n = log[0] as usize;
    let transitions = net::transitions(net);
    let keys = look_up::first_keys(net, sheet);
    let starts = look_up::arc_starts(net, sheet, &keys);
    let mut ranks = [0u16; 32];
    let mut node = 0;
    let mut entry = None;
    for i in 0..n {
        let logged = log[1 + n + i];
        let Some(e) = look_up::arc(
            net,
            sheet,
            &keys,
            &starts,
            &mut ranks,
            transitions,
            node,
            log[1 + i],
        ) else {
            return Err(Refusal {
                reason: Reason::NotOffered,
                at: Position::Record(i),
            });
        };
        if logged != look_up::arc_target(sheet, e) {
            return Err(Refusal {
                reason: Reason::WrongNode,
                at: Position::Record(i),
            });
        }
        // The logged node is the one that was reached. It is taken from the log: the processor can go on with it while the comparison is still under way.
        node = logged;
        entry = Some(e as u32);
    }
    Ok(entry)
}
