// Reads cases one after the other, each an operation's number and its arguments, and answers each.
use super::answers;
use super::input::Input;
use super::operation::{Length, Operation};
use super::print::Output;
use std::alloc::{AllocError, Global};
use std::io;
use std::io::Write;
use thiserror::Error;

// How many words a case may have.
const MOST: usize = 40000;

// How many words a buffer may have that is lent to a call.
const MOST_LENT: usize = 9000;

// What each word of an output buffer is before the call.
pub(crate) const OUT: u32 = 9;

// What each word of scratch is before the call.
pub(crate) const SCRATCH: u32 = 7;

// Why the cases end before the input does.
#[derive(Debug, Drop, Error)]
pub(crate) enum Stop {
    #[error("no such call")]
    NoSuchCall,
    #[error("too long")]
    TooLong,
    #[error(transparent)]
    Memory(#[from(alloc)] AllocError),
    #[error(transparent)]
    Output(#[from] io::Error),
}

// The buffers that are lent to a call. One that it does not take has no words.
#[derive(Drop)]
pub(crate) struct Buffers {
    pub out: Vec<u32>,
    pub second: Vec<u32>,
    pub taken: Vec<u64>,
    pub put: Vec<u64>,
    pub scratch: Vec<u32>,
}

// An operation and all that its call is given.
#[derive(Drop)]
pub(crate) struct Case {
    pub operation: Operation,
    pub net: Vec<u32>,
    pub numbers: Vec<u32>,
    pub sheets: Vec<Vec<u32>>,
    pub words: Vec<u32>,
    pub lent: Buffers,
}

// Reads the parts of a case, and counts how many words it may still have.
#[derive(Drop)]
struct Parts<'a> {
    alloc: Global,
    input: &'a mut Input,
    room: usize,
}

impl Parts<'_> {
    // A list of words.
    fn list(&mut self, length: Length) -> Result<Vec<u32>, Stop> {
        let length = match length {
            Length::Told => self.input.number() as usize,
            Length::Known(length) => length,
        };
        self.room = self.room.checked_sub(length).ok_or(Stop::TooLong)?;
        let words = (0..length)
            .map(|_| self.input.number())
            .collect(self.alloc)?;
        Ok(words)
    }

    // A buffer, whose length the case tells if it has the buffer.
    fn lent<T: Clone + Drop>(&mut self, has: bool, blank: T) -> Result<Vec<T>, Stop> {
        let length = if has { self.input.number() as usize } else { 0 };
        if MOST_LENT < length {
            return Err(Stop::TooLong);
        }
        Ok(vec![in self.alloc; blank; length]?)
    }
}

impl Case {
    // Reads a case, from after its operation's number on.
    fn read(alloc: Global, input: &mut Input, operation: Operation) -> Result<Case, Stop> {
        let shape = operation.shape();
        let mut parts = Parts {
            alloc,
            input,
            room: MOST,
        };
        let net = parts.list(Length::Told)?;
        let numbers = parts.list(Length::Known(shape.numbers))?;
        let mut sheets = Vec::new(alloc);
        for _ in 0..shape.sheets {
            sheets.push(parts.list(Length::Told)?)?;
        }
        let words = parts.list(shape.words)?;
        let lent = Buffers {
            out: parts.lent(0 < shape.outs, OUT)?,
            second: parts.lent(1 < shape.outs, OUT)?,
            taken: parts.lent(shape.totals, u64::from(OUT))?,
            put: parts.lent(shape.totals, u64::from(OUT))?,
            scratch: parts.lent(shape.scratch(), SCRATCH)?,
        };
        Ok(Case {
            operation,
            net,
            numbers,
            sheets,
            words,
            lent,
        })
    }
}

// Plays the cases up to the operation 0, as which the end of the input is read. The input may never end, so the turns are counted to give the loop a bound.
fn each(alloc: Global, input: &mut Input, output: &mut Output) -> Result<(), Stop> {
    for _ in 0..u64::MAX {
        let number = input.number();
        if number == 0 {
            break;
        }
        let operation = Operation::try_from(number)?;
        let mut case = Case::read(alloc, input, operation)?;
        answers::line(output, &mut case)?;
    }
    Ok(())
}

// Plays all cases, and prints why they end early, where that lies in a case.
pub(crate) fn play(alloc: Global, input: &mut Input, output: &mut Output) -> io::Result<()> {
    match each(alloc, input, output) {
        Ok(()) => {}
        Err(Stop::Memory(error)) => return Err(io::Error::from(error)),
        Err(Stop::Output(error)) => return Err(error),
        Err(stop) => writeln!(output, "{stop}")?,
    }
    output.flush()
}
