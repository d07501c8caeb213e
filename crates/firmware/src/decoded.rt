// Decodes the bytes of net and schedule to words in local arrays. The record of a run is not decoded, since it may have any length. Results are
// written as bytes.
ghost use Rattle.std.specs.Prelude.{◌≡◌, [], length, take};
ghost use Rattle.schedule.specs.Calls.{check_core, run_core};
ghost use Rattle.minimal.specs.Form.{form_core};
ghost use Rattle.octets.specs.Words.{all_words};
ghost use Rattle.firmware.specs.Parts.{Written, next_of_words};

use super::words;
use judge::CheckAnswer;
use minimal::FormAnswer;
use refusal::Refusal;
use schedule::RunAnswer;

// Room for one word more of each than the longest that can be accepted. Words past these change no answer (§15.7).
const NET_WORDS: usize = 4228;

const SHEET_WORDS: usize = 8195;

// The words of bytes, in front of a buffer: at most as many as it has.
fn words_in<'a>(bytes: &[u8], buffer: &'a mut [u32]) -> &'a [u32]
    ensures { result.now ≡ take (length buffer.old) (all_words bytes.now) }
{
    let n = octets::decode(bytes, buffer).words;
    &buffer[..n]
}

pub(crate) fn check(net: &[u8], sheet: &[u8]) -> CheckAnswer
    ensures { Written (check_core (all_words net.now) (all_words sheet.now)) [] result [] }
{
    judge::check(
        words_in(net, &mut [0; NET_WORDS]),
        words_in(sheet, &mut [0; SHEET_WORDS]),
    )
}

pub(crate) fn run(net: &[u8], sheet: &[u8], firings: &[u8], out: &mut [u8]) -> RunAnswer
    ensures { Written (run_core (all_words net.now) (all_words sheet.now) (all_words firings.now)) out.old result out.new }
{
    words::run(
        words_in(net, &mut [0; NET_WORDS]),
        words_in(sheet, &mut [0; SHEET_WORDS]),
        firings,
        out,
    )
}

pub(crate) fn form(net: &[u8], sheet: &[u8], out: &mut [u8]) -> FormAnswer
    ensures { Written (form_core (all_words net.now) (all_words sheet.now)) out.old result out.new }
{
    words::form(
        words_in(net, &mut [0; NET_WORDS]),
        words_in(sheet, &mut [0; SHEET_WORDS]),
        out,
    )
}

pub(crate) fn fire(net: &[u8], sheet: &[u8], node: u32, t: u32) -> Result<u32, Refusal>
    ensures { result ≡ next_of_words (all_words net.now) (all_words sheet.now) node t }
{
    words::fire(
        words_in(net, &mut [0; NET_WORDS]),
        words_in(sheet, &mut [0; SHEET_WORDS]),
        node,
        t,
    )
}
