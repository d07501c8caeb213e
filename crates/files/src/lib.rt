// The program's two files: their bytes as words, the answer to both, and all that is printed.
#![tactic(auto)]

ghost use Rattle.std.specs.Prelude.{◌≡◌, Ok};
ghost use Rattle.sequential.specs.Check.{schedule_reply};
ghost use Rattle.text.specs.Buffer.{Put};
ghost use Rattle.files.specs.Program.{read_answer, FilesRead};
ghost use Rattle.files.specs.Printed.{refused_text, WordsPrinted, FilesPrinted};

use judge::{CheckAnswer, Counts};
use refusal::{Position, Reason, Refusal};

// Which of the two files had a tail.
#[derive(Clone, Copy)]
pub struct Tails {
    pub net: bool,
    pub sheet: bool,
}

// The answer to two files, and how many words of each were handed on.
#[derive(Clone, Copy)]
pub struct FilesAnswer {
    pub answer: CheckAnswer,
    pub net: usize,
    pub sheet: usize,
}

// The answer to the words of two files, each of which may have had a tail: §12.4.
fn check_read(tails: Tails, net: &[u32], sheet: &[u32]) -> CheckAnswer
    ensures { result ≡ read_answer tails.net tails.sheet net.now sheet.now }
{
    if tails.net {
        return Err(Refusal {
            reason: Reason::NetLength,
            at: Position::Nothing,
        });
    }
    if tails.sheet {
        net::check(net)?;
        return Err(Refusal {
            reason: Reason::ScheduleLength,
            at: Position::Nothing,
        });
    }
    judge::check(net, sheet)
}

// The answer to the bytes of two files (§12.5). Their words are left in the buffers `net` and `sheet`.
fn check_files(netbin: &[u8], sheetbin: &[u8], net: &mut [u32], sheet: &mut [u32]) -> FilesAnswer
    ensures { FilesRead netbin.now sheetbin.now net.old sheet.old result net.new sheet.new }
{
    let first = octets::decode(netbin, net);
    let second = octets::decode(sheetbin, sheet);
    let n = first.words;
    let s = second.words;
    let tails = Tails {
        net: first.ragged,
        sheet: second.ragged,
    };
    let answer = check_read(tails, &net[..n], &sheet[..s]);
    FilesAnswer {
        answer,
        net: n,
        sheet: s,
    }
}

// Line 1 of a refusal: §12.6.
fn print_refusal(refusal: Refusal, out: &mut [u8]) -> usize
    ensures { Put out.old 0 (refused_text refusal) result out.new }
{
    let at = refusal.at;
    text::answer_line(out, 0, refusal.reason.number(), at.kind(), at.index())
}

// All lines for words that are accepted (§12.7), or 22 if the buffer is too short for their minimal form.
fn print_accepted(
    counts: Counts,
    net: &[u32],
    sheet: &[u32],
    form: &mut [u32],
    out: &mut [u8],
) -> usize
    requires { schedule_reply net.now sheet.now ≡ Ok tt }
    ensures { WordsPrinted (Ok counts) net.now sheet.now form.old out.old result form.new out.new }
{
    match minimize::form_of(net, sheet, form) {
        Err(r) => print_refusal(r, out),
        Ok(k) => {
            let bounds = schedule::bounds(net, sheet);
            let places = net::places(net) as usize;
            text::accepted_lines(
                out,
                0,
                counts.nodes,
                counts.arcs,
                counts.awaits,
                &bounds[..places],
                &form[..k],
            )
        }
    }
}

// All that is printed for the bytes of two files, at the front of out. The words of the files and of the minimal form are left in the other buffers.
pub fn print_files(
    netbin: &[u8],
    sheetbin: &[u8],
    net: &mut [u32],
    sheet: &mut [u32],
    form: &mut [u32],
    out: &mut [u8],
) -> usize
    ensures { FilesPrinted netbin.now sheetbin.now net.old sheet.old form.old out.old result net.new sheet.new form.new out.new }
{
    let found = check_files(netbin, sheetbin, net, sheet);
    let n = found.net;
    let s = found.sheet;
    let answer = found.answer;
    match answer {
        Err(r) => print_refusal(r, out),
        Ok(counts) => print_accepted(counts, &net[..n], &sheet[..s], form, out),
    }
}
