// Numbers as decimal text, and the lines that the programs print, put into a lent buffer. Every function puts its text at an index and answers the
// index after it. Bytes for which the buffer has no room are dropped.
#![tactic(auto)]

mod buffer;

ghost use Rattle.std.specs.Prelude.{◌≡◌, ◌++◌};
ghost use Rattle.text.specs.Buffer.{Put};
ghost use Rattle.text.specs.Decimal.{ascii, decimal};
ghost use Rattle.text.specs.Lines.{kind_name, answer_text, answer_line, counts_line, bound_line, bound_lines, words_text, form_line, accepted_lines};

// A text, and a number after it.
pub fn field(out: &mut [u8], at: usize, name: &[u8], n: u64) -> usize
    ensures { Put out.old at (name.now ++ decimal n) result out.new }
{
    let next = buffer::bytes(out, at, name);
    buffer::decimal(out, next, n)
}

// The name of a kind of position, by its number: §8.2. A kind is a number here, as it is among an answer's plain numbers.
fn kind_name(kind: u64) -> &'static [u8]
    ensures { result.now ≡ ascii (kind_name kind) }
{
    match kind {
        0 => b" none",
        1 => b" entry",
        2 => b" place",
        3 => b" node",
        _ => b" record",
    }
}

// Line 1 without its line end, for an answer's number, the number of its kind of position and the index: §12.6. They are as wide as an answer's plain numbers.
pub fn answer(out: &mut [u8], at: usize, number: u64, kind: u64, index: u64) -> usize
    ensures { Put out.old at (answer_text number kind index) result out.new }
{
    let at = field(out, at, b"answer ", number);
    let at = buffer::bytes(out, at, kind_name(kind));
    field(out, at, b" ", index)
}

// Line 1: §12.6.
pub fn answer_line(out: &mut [u8], at: usize, number: u32, kind: u32, index: usize) -> usize
    ensures { Put out.old at (answer_line number kind index) result out.new }
{
    let at = answer(out, at, u64::from(number), u64::from(kind), index as u64);
    buffer::byte(out, at, b'\n')
}

fn counts_line(out: &mut [u8], at: usize, nodes: u32, arcs: u32, awaits: u32) -> usize
    ensures { Put out.old at (counts_line nodes arcs awaits) result out.new }
{
    let at = field(out, at, b"nodes ", u64::from(nodes));
    let at = field(out, at, b" arcs ", u64::from(arcs));
    let at = field(out, at, b" awaits ", u64::from(awaits));
    buffer::byte(out, at, b'\n')
}

fn bound_line(out: &mut [u8], at: usize, place: usize, bound: u32) -> usize
    ensures { Put out.old at (bound_line place bound) result out.new }
{
    let at = field(out, at, b"place ", place as u64);
    let at = field(out, at, b" bound ", u64::from(bound));
    buffer::byte(out, at, b'\n')
}

// A line for each place.
fn bound_lines(out: &mut [u8], at: usize, bounds: &[u32]) -> usize
    ensures { Put out.old at (bound_lines bounds.now) result out.new }
{
    let mut next = at;
    for (p, bound) in bounds.iter().enumerate() {
        next = bound_line(out, next, p, *bound);
    }
    next
}

// Each word after a blank.
pub fn words(out: &mut [u8], at: usize, words: &[u32]) -> usize
    ensures { Put out.old at (words_text words.now) result out.new }
{
    let mut next = at;
    for word in words {
        next = field(out, next, b" ", u64::from(*word));
    }
    next
}

fn form_line(out: &mut [u8], at: usize, form: &[u32]) -> usize
    ensures { Put out.old at (form_line form.now) result out.new }
{
    let at = buffer::bytes(out, at, b"short");
    let at = words(out, at, form);
    buffer::byte(out, at, b'\n')
}

// All lines of an accepted schedule, with its numbers of nodes, arcs and await nodes, the bounds of its places and the words of its minimal form: §12.7.
pub fn accepted_lines(
    out: &mut [u8],
    at: usize,
    nodes: u32,
    arcs: u32,
    awaits: u32,
    bounds: &[u32],
    form: &[u32],
) -> usize
    ensures { Put out.old at (accepted_lines nodes arcs awaits bounds.now form.now) result out.new }
{
    let at = answer_line(out, at, 0, 0, 0);
    let at = counts_line(out, at, nodes, arcs, awaits);
    let at = bound_lines(out, at, bounds);
    form_line(out, at, form)
}
