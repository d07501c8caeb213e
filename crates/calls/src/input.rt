// Numbers from standard input: decimal, parted by anything that is no digit. `#` starts a comment that ends with the line.
use std::io::{BufRead, BufReader, Stdin};

// Where reading stands.
#[derive(Clone, Copy, Debug, PartialEq, Eq)]
enum Place {
    Text,
    Comment,
    End,
}

#[derive(Drop)]
pub(crate) struct Input {
    reader: BufReader<Stdin>,
    place: Place,
}

// Reads on in some bytes, in a number or before it. Answers how many bytes there are up to the one behind the number; none if it may go on past them.
fn read(bytes: &[u8], place: &mut Place, number: &mut Option<u32>) -> Option<usize> {
    for (i, byte) in bytes.iter().enumerate() {
        if *place == Place::Text && byte.is_ascii_digit() {
            let digit = u32::from(*byte - b'0');
            *number = Some(number.unwrap_or(0u32).wrapping_mul(10).wrapping_add(digit));
            continue;
        }
        match *byte {
            b'#' => *place = Place::Comment,
            b'\n' => *place = Place::Text,
            _ => {}
        }
        if number.is_some() {
            return Some(i + 1);
        }
    }
    None
}

impl Input {
    // Before the first byte.
    pub(crate) fn new(reader: BufReader<Stdin>) -> Input {
        Input {
            reader,
            place: Place::Text,
        }
    }

    // The next number, modulo 2 ^ 32, or 0 once the input has ended. Where reading fails, it ends too. The byte behind the number is read with it. The input may
    // never end, so the turns are counted to give the loop a bound.
    pub(crate) fn number(&mut self) -> u32 {
        if self.place == Place::End {
            return 0;
        }
        let mut number = None;
        for _ in 0..u64::MAX {
            let bytes = match self.reader.fill_buf() {
                Ok(bytes) if !bytes.is_empty() => bytes,
                _ => break,
            };
            let all = bytes.len();
            let end = read(bytes, &mut self.place, &mut number);
            self.reader.consume(end.unwrap_or(all));
            if end.is_some() {
                return number.unwrap_or(0);
            }
        }
        self.place = Place::End;
        number.unwrap_or(0)
    }
}
