// The calls on decoded words that the crates below do not have in this form: a record that is read from bytes, results that are written as bytes, and a
// firing from the node's own counts.
ghost use Rattle.std.specs.Prelude.{◌≡◌};
ghost use Rattle.sequential.specs.Petri.{petri_net};
ghost use Rattle.graph.specs.Readable.{Readable};
ghost use Rattle.schedule.specs.Firing.{FollowedTo};
ghost use Rattle.schedule.specs.Calls.{run_core};
ghost use Rattle.minimal.specs.Form.{form_core};
ghost use Rattle.octets.specs.Words.{all_words};
ghost use Rattle.firmware.specs.Parts.{Written, next_of_words};

use minimal::FormAnswer;
use refusal::{Position, Reason, Refusal};
use schedule::{Ran, RunAnswer, Walker};

// The longest minimal form: §11.7.
const FORM_WORDS: usize = 8194;

// ---- the run

// Fires a record from node 0, reading its transitions one by one, or refuses the first firing that is not offered.
fn follow(net: &[u32], sheet: &[u32], firings: &[u8]) -> RunAnswer
    requires { Readable net.now sheet.now }
    ensures { FollowedTo (petri_net net.now) sheet.now (all_words firings.now) result }
{
    let count = firings.len() / 4;
    let mut node = 0;
    let mut entry = None;
    for i in 0..count {
        let t = octets::word(firings, i);
        let Some(e) = graph::arc(net, sheet, node, t) else {
            return Err(Refusal {
                reason: Reason::NotOffered,
                at: Position::Record(i),
            });
        };
        node = graph::value(sheet, e);
        entry = Some(e as u32);
    }
    Ok(Ran {
        fired: count,
        node,
        entry,
    })
}

pub(crate) fn run(net: &[u32], sheet: &[u32], firings: &[u8], out: &mut [u8]) -> RunAnswer
    ensures { Written (run_core net.now sheet.now (all_words firings.now)) out.old result out.new }
{
    judge::verdict(net, sheet)?;
    let ran = follow(net, sheet, firings)?;
    let places = net::places(net) as usize;
    lending::output_fault(out.len() / 4, places)?;
    let row = graph::marking(net, sheet, ran.node);
    octets::write_words(&row[..places], out);
    Ok(ran)
}

// ---- the minimal form, first written to an array of words that holds the longest one

pub(crate) fn form(net: &[u32], sheet: &[u32], out: &mut [u8]) -> FormAnswer
    ensures { Written (form_core net.now sheet.now) out.old result out.new }
{
    let mut form = [0u32; FORM_WORDS];
    let k = minimize::form_into(net, sheet, &mut form)?;
    lending::output_fault(out.len() / 4, k)?;
    octets::write_words(&form[..k], out);
    Ok(k)
}

// ---- the single firing, from the counts of the node itself: the next node

pub(crate) fn fire(net: &[u32], sheet: &[u32], node: u32, t: u32) -> Result<u32, Refusal>
    ensures { result ≡ next_of_words net.now sheet.now node t }
{
    let walker = Walker {
        node,
        counts: graph::marking(net, sheet, node),
    };
    let fired = walker.step(net, sheet, t);
    fired.answer?;
    Ok(fired.next.node)
}
