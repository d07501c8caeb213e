// The calls over bytes, for firmware in C (part 15 of docs/SPEC.md): the schedule check, the run, the minimal form and the single firing. In C each slice is
// a pointer and then its length in bytes; include/wulthrein.h has the prototypes.
//
// The first three do the same steps. If the reply is too short, they return 21 and touch nothing. Else the answer is 21, 31, or what the word call answers
// to the decoded words; then scratch is cleared, the reply written, and the number of the answer returned.
//
// `firmware_c` exports these calls under these names.
#![tactic(auto)]

mod decoded;
mod lent;
mod words;

ghost use Rattle.std.specs.Prelude.{◌≡◌, []};
ghost use Rattle.firmware.specs.Calls.{check_bytes, BytesChecked, run_bytes, BytesRan, form_bytes, BytesFormed, BytesFired};
ghost use Rattle.firmware.specs.Parts.{Served, next_of_bytes};

use judge::CheckAnswer;
use minimal::FormAnswer;
use refusal::{Reason, Refusal};
use schedule::RunAnswer;

// Six numbers of eight bytes: §15.3.
const REPLY_BYTES: usize = 48;

// A refused firing returns this plus the number of its refusal: §15.6.
const FIRING_REFUSED: u32 = 2147483648;

// ---- the schedule check

// Refusals 21 and 31, or the answer to the words.
fn check(net: &[u8], sheet: &[u8], lent: usize) -> CheckAnswer
    ensures { Served (check_bytes net.now sheet.now) lent [] result [] }
{
    lent::early_fault(lent, net.len(), sheet.len(), 0)?;
    decoded::check(net, sheet)
}

// Its own numbers: nodes, arcs, await nodes.
pub fn wulthrein_check(net: &[u8], sheet: &[u8], scratch: &mut [u8], reply: &mut [u8]) -> u32
    ensures { BytesChecked net.now sheet.now scratch.old reply.old result scratch.new reply.new }
{
    if reply.len() < REPLY_BYTES {
        return Reason::SmallScratch.number();
    }
    let answer = check(net, sheet, scratch.len());
    lent::finish(answer, scratch, reply)
}

// ---- the run

fn run(net: &[u8], sheet: &[u8], firings: &[u8], out: &mut [u8], lent: usize) -> RunAnswer
    ensures { Served (run_bytes net.now sheet.now firings.now) lent out.old result out.new }
{
    lent::early_fault(lent, net.len(), sheet.len(), firings.len())?;
    decoded::run(net, sheet, firings, out)
}

// Its own numbers: firings, the node at the end, 1 more than the last entry; writes the counts at the end.
pub fn wulthrein_run(
    net: &[u8],
    sheet: &[u8],
    firings: &[u8],
    out: &mut [u8],
    scratch: &mut [u8],
    reply: &mut [u8],
) -> u32
    ensures { BytesRan net.now sheet.now firings.now out.old scratch.old reply.old result out.new scratch.new reply.new }
{
    if reply.len() < REPLY_BYTES {
        return Reason::SmallScratch.number();
    }
    let answer = run(net, sheet, firings, out, scratch.len());
    lent::finish(answer, scratch, reply)
}

// ---- the minimal form

fn form(net: &[u8], sheet: &[u8], out: &mut [u8], lent: usize) -> FormAnswer
    ensures { Served (form_bytes net.now sheet.now) lent out.old result out.new }
{
    lent::early_fault(lent, net.len(), sheet.len(), 0)?;
    decoded::form(net, sheet, out)
}

// Its own number: the length of the form in words; it writes that many.
pub fn wulthrein_short_form(
    net: &[u8],
    sheet: &[u8],
    out: &mut [u8],
    scratch: &mut [u8],
    reply: &mut [u8],
) -> u32
    ensures { BytesFormed net.now sheet.now out.old scratch.old reply.old result out.new scratch.new reply.new }
{
    if reply.len() < REPLY_BYTES {
        return Reason::SmallScratch.number();
    }
    let answer = form(net, sheet, out, scratch.len());
    lent::finish(answer, scratch, reply)
}

// ---- the single firing: no reply, one number (§15.6)

// Refusals 21 and 31, or what the word call answers: the next node.
fn fire(net: &[u8], sheet: &[u8], node: u32, t: u32, lent: usize) -> Result<u32, Refusal>
    ensures { result ≡ next_of_bytes net.now sheet.now node t lent }
{
    lent::early_fault(lent, net.len(), sheet.len(), 0)?;
    decoded::fire(net, sheet, node, t)
}

// Returns the next node, or 2,147,483,648 plus the number of the refusal.
pub fn wulthrein_fire(
    net: &[u8],
    sheet: &[u8],
    node: u32,
    transition: u32,
    scratch: &mut [u8],
) -> u32
    ensures { BytesFired net.now sheet.now node transition scratch.old result scratch.new }
{
    let answer = fire(net, sheet, node, transition, scratch.len());
    lent::clear(scratch);
    match answer {
        Ok(next) => next,
        Err(r) => FIRING_REFUSED + r.reason.number(),
    }
}
