// The checks of the lengths that are lent, and what is left in scratch and reply.
ghost use Rattle.std.specs.Prelude.{◌≡◌, ◌≤◌, length};
ghost use Rattle.refusal.specs.Refusal.{plain_answer};
ghost use Rattle.lending.specs.Call.{scratch_at_return};
ghost use Rattle.lending.specs.Demands.{number};
ghost use Rattle.octets.specs.Bytes.{bytes_over};
ghost use Rattle.firmware.specs.Bytes.{scratch_bytes, reply_bytes};
ghost use Rattle.firmware.specs.Parts.{early_verdict};

use refusal::{Numbers, Position, Reason, Refusal, Verdict};

// Four bytes to the word: §15.4.
const SCRATCH_BYTES: usize = 32768;

// Refusal 21, then 31 for any of the inputs: §7.65.
pub(crate) fn early_fault(lent: usize, net: usize, sheet: usize, firings: usize) -> Verdict
    ensures { result ≡ early_verdict lent net sheet firings }
{
    if lent < SCRATCH_BYTES {
        return refusal::refuse(Reason::SmallScratch, Position::Nothing);
    }
    if net % 4 != 0 || sheet % 4 != 0 || firings % 4 != 0 {
        return refusal::refuse(Reason::BrokenWord, Position::Nothing);
    }
    Ok(())
}

// Zeroes scratch if there is enough of it: §15.4.
pub(crate) fn clear(scratch: &mut [u8])
    ensures { scratch.new ≡ scratch_at_return scratch_bytes scratch.old }
{
    if scratch.len() < SCRATCH_BYTES {
        return;
    }
    scratch[..SCRATCH_BYTES].fill(0);
}

// Clears scratch, writes the answer's plain numbers to the reply, and answers the first of them as 32 bits, which the call returns.
pub(crate) fn finish<A: Numbers>(
    answer: Result<A, Refusal>,
    scratch: &mut [u8],
    reply: &mut [u8],
) -> u32
    requires { reply_bytes ≤ length reply.old }
    ensures { (result ≡ number (plain_answer A.numbers answer)) × (scratch.new ≡ scratch_at_return scratch_bytes scratch.old) × (reply.new ≡ bytes_over 8 (plain_answer A.numbers answer) reply.old) }
{
    let number = match &answer {
        Ok(_) => 0,
        Err(r) => r.reason.number(),
    };
    clear(scratch);
    octets::write_six(refusal::plain(answer), reply);
    number
}
