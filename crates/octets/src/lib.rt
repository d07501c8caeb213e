// Bytes as words and numbers, the least significant byte first. The program's files and the calls over bytes are read so; the calls' results are written so.
#![tactic(auto)]

ghost use Rattle.std.specs.Prelude.{◌≡◌, ◌+◌, ◌<◌, length, get_or};
ghost use Rattle.scan.specs.Placed.{placed};
ghost use Rattle.octets.specs.Words.{word_from, word_count, is_ragged, all_words, FileRead};
ghost use Rattle.octets.specs.Bytes.{bytes_of};

// ---- bytes as words

// How many words of a file are handed on (§12.3), and whether a tail was found (§12.4). No `Result`: the words of a file with a tail are handed on too.
#[derive(Clone, Copy)]
pub struct Reading {
    pub words: usize,
    pub ragged: bool,
}

// The word that starts at a byte: §12.1.
fn word_from(bytes: &[u8], at: usize) -> u32
    requires { at + 3 < length bytes.now }
    ensures { result ≡ word_from bytes.now at }
{
    u32::from_le_bytes([bytes[at], bytes[at + 1], bytes[at + 2], bytes[at + 3]])
}

// Word i, read without a buffer; 0 past the last whole word.
pub fn word(bytes: &[u8], i: usize) -> u32
    ensures { result ≡ get_or (all_words bytes.now) i 0 }
{
    if bytes.len() / 4 <= i {
        return 0;
    }
    word_from(bytes, 4 * i)
}

// How many words of a file are handed on, if at most `most` are, and whether it has a tail.
fn measure(bytes: &[u8], most: usize) -> Reading
    ensures { (result.words ≡ word_count most bytes.now) × (result.ragged ≡ is_ragged most bytes.now) }
{
    let whole = bytes.len() / 4;
    Reading {
        words: whole.min(most),
        ragged: whole < most && bytes.len() % 4 != 0,
    }
}

// Decodes bytes into a buffer, at most as many words as the buffer has (§12.3).
pub fn decode(bytes: &[u8], out: &mut [u32]) -> Reading
    ensures { FileRead bytes.now out.old result out.new }
{
    let reading = measure(bytes, out.len());
    // By an index: a proof knows nothing of what is written through `out.iter_mut().zip(..)`.
    for i in 0..reading.words {
        out[i] = word_from(bytes, 4 * i);
    }
    reading
}

// ---- numbers as bytes: §15.2

// Puts bytes at an index; those past the buffer's end are dropped. Where all have room the compiler makes them one store.
fn put<const N: usize>(bytes: [u8; N], out: &mut [u8], at: usize)
    ensures { out.new ≡ placed out.old at bytes.entry }
{
    if out.len() <= at {
        return;
    }
    let room = out.len() - at;
    if N <= room {
        out[at..at + N].copy_from_slice(&bytes);
    } else {
        out[at..].copy_from_slice(&bytes[..room]);
    }
}

// Writes words over the front of a buffer, four bytes each; bytes past the buffer's end are dropped.
pub fn write_words(words: &[u32], out: &mut [u8])
    ensures { out.new ≡ placed out.old 0 (bytes_of 4 words.now) }
{
    for (i, word) in words.iter().enumerate() {
        put(word.to_le_bytes(), out, 4 * i);
    }
}

// Writes six numbers over the front of a buffer, eight bytes each; bytes past the buffer's end are dropped.
pub fn write_six(numbers: [u64; 6], out: &mut [u8])
    ensures { out.new ≡ placed out.old 0 (bytes_of 8 numbers) }
{
    for (i, number) in numbers.iter().enumerate() {
        put(number.to_le_bytes(), out, 8 * i);
    }
}
