// Prints answers as words: the number, the kind of position, the position, then the call's own numbers, and what the buffers hold.
use lending::Fault;
use refusal::{Numbers, Refusal};
use schedule::Walker;
use std::io;
use std::io::{BufWriter, Stdout, Write};

// Bytes are held back until a block is full: a call of the system for each piece would be slow.
pub(crate) type Output = BufWriter<Stdout>;

// A text, and a number after it: `text` puts them into a buffer. No text here is longer than 44 bytes, and no number has more than 20 digits.
fn field(output: &mut Output, name: &[u8], n: u64) -> io::Result<()> {
    let mut line = [0u8; 64];
    let end = text::field(&mut line, 0, name, n);
    output.write_all(&line[..end])
}

// The three numbers that every answer begins with (§8.1), 55 bytes at most, and the call's own behind their labels.
fn numbers(output: &mut Output, plain: [u64; 6], labels: &[&[u8]]) -> io::Result<()> {
    let mut line = [0u8; 64];
    let end = text::answer(&mut line, 0, plain[0], plain[1], plain[2]);
    output.write_all(&line[..end])?;
    for (label, number) in labels.iter().zip(&plain[3..]) {
        field(output, label, *number)?;
    }
    Ok(())
}

pub(crate) fn answer<A: Numbers>(
    output: &mut Output,
    answer: Result<A, Refusal>,
    labels: &[&[u8]],
) -> io::Result<()> {
    numbers(output, refusal::plain(answer), labels)
}

// An answer whose refusal can name a sheet: §8.4.
pub(crate) fn answer_on_sheets<A: Numbers>(
    output: &mut Output,
    answer: Result<A, Fault>,
    labels: &[&[u8]],
) -> io::Result<()> {
    let sheet = lending::sheet_index(&answer);
    numbers(output, lending::plain(answer), labels)?;
    field(output, b" sheet ", sheet)
}

// What a transition takes and puts at a place, what the place starts with and its capacity.
pub(crate) fn weights(output: &mut Output, net: &[u32], t: u32, p: u32) -> io::Result<()> {
    field(output, b"taken ", u64::from(net::taken(net, t, p)))?;
    field(output, b" put ", u64::from(net::put(net, t, p)))?;
    field(output, b" start ", u64::from(net::start(net, p)))?;
    let capacity = refusal::plain_index(net::capacity(net, p));
    field(output, b" capacity ", capacity)
}

// The words up to the last that is not `blank`, and those that follow.
fn parted<T: Copy + PartialEq>(words: &[T], blank: T) -> (&[T], &[T]) {
    let end = words
        .iter()
        .rposition(|word| *word != blank)
        .map_or(0, |last| last + 1);
    words.split_at(end)
}

// Each word after a blank, 372 words at a time: `text` puts so many into a block, a blank and ten digits at most for each.
fn words(output: &mut Output, words: &[u32]) -> io::Result<()> {
    for part in words.chunks(372) {
        let mut block = [0u8; 4096];
        let end = text::words(&mut block, 0, part);
        output.write_all(&block[..end])?;
    }
    Ok(())
}

// The words up to the last that is not `blank`, and how many follow.
pub(crate) fn out(output: &mut Output, buffer: &[u32], blank: u32) -> io::Result<()> {
    let (used, rest) = parted(buffer, blank);
    output.write_all(b" out")?;
    words(output, used)?;
    field(output, b" rest ", rest.len() as u64)
}

// The same of numbers of 64 bits. A replay writes one for each place, few enough to print each by itself.
pub(crate) fn totals(output: &mut Output, buffer: &[u64], blank: u64) -> io::Result<()> {
    let (used, rest) = parted(buffer, blank);
    output.write_all(b" out")?;
    for total in used {
        field(output, b" ", *total)?;
    }
    field(output, b" rest ", rest.len() as u64)
}

// How many words are 0, how many are still `blank`, and the index of the first `blank`, or the length if there is none.
pub(crate) fn scratch(output: &mut Output, buffer: &[u32], blank: u32) -> io::Result<()> {
    let cleared = buffer.iter().filter(|word| **word == 0).count();
    let kept = buffer.iter().filter(|word| **word == blank).count();
    let first = buffer
        .iter()
        .position(|word| *word == blank)
        .unwrap_or(buffer.len());
    field(output, b" scratch ", cleared as u64)?;
    field(output, b" ", kept as u64)?;
    field(output, b" ", first as u64)
}

// The node, and the counts up to the last that is not 0.
pub(crate) fn walker(output: &mut Output, walker: Walker) -> io::Result<()> {
    let counts = walker.counts;
    let (held, _) = parted(&counts, 0);
    field(output, b" node ", u64::from(walker.node))?;
    output.write_all(b" counts")?;
    words(output, held)
}
