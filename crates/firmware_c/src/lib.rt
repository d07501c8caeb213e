// The calls over bytes as C has them: each is that of `firmware`, under the same name and with the same clauses. A slice is a pointer and then its length
// in bytes; include/wulthrein.h has the prototypes.
#![tactic(auto)]

ghost use Rattle.firmware.specs.Calls.{BytesChecked, BytesRan, BytesFormed, BytesFired};

// The schedule check.
#[unsafe(no_mangle)]
pub extern "C" fn wulthrein_check(
    net: &[u8],
    sheet: &[u8],
    scratch: &mut [u8],
    reply: &mut [u8],
) -> u32
    ensures { BytesChecked net.now sheet.now scratch.old reply.old result scratch.new reply.new }
{
    firmware::wulthrein_check(net, sheet, scratch, reply)
}

// The run.
#[unsafe(no_mangle)]
pub extern "C" fn wulthrein_run(
    net: &[u8],
    sheet: &[u8],
    firings: &[u8],
    out: &mut [u8],
    scratch: &mut [u8],
    reply: &mut [u8],
) -> u32
    ensures { BytesRan net.now sheet.now firings.now out.old scratch.old reply.old result out.new scratch.new reply.new }
{
    firmware::wulthrein_run(net, sheet, firings, out, scratch, reply)
}

// The minimal form.
#[unsafe(no_mangle)]
pub extern "C" fn wulthrein_short_form(
    net: &[u8],
    sheet: &[u8],
    out: &mut [u8],
    scratch: &mut [u8],
    reply: &mut [u8],
) -> u32
    ensures { BytesFormed net.now sheet.now out.old scratch.old reply.old result out.new scratch.new reply.new }
{
    firmware::wulthrein_short_form(net, sheet, out, scratch, reply)
}

// The single firing.
#[unsafe(no_mangle)]
pub extern "C" fn wulthrein_fire(
    net: &[u8],
    sheet: &[u8],
    node: u32,
    transition: u32,
    scratch: &mut [u8],
) -> u32
    ensures { BytesFired net.now sheet.now node transition scratch.old result scratch.new }
{
    firmware::wulthrein_fire(net, sheet, node, transition, scratch)
}
