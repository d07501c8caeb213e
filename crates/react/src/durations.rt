// The durations (§10.45): refusal 32, and how long a transition lasts.
ghost use Rattle.std.specs.Prelude.{◌≡◌, ◌≤◌, ◌<◌};
ghost use Rattle.refusal.specs.Verdict.{verdict_of};
ghost use Rattle.reaction.specs.Words.{ShapePasses};
ghost use Rattle.reaction.specs.Tests.{shape_passes, duration_fails, durations_fault};
ghost use Rattle.react.specs.Cases.{duration_of};

use super::case::Case;
use refusal::{Position, Reason, Verdict};

const LONGEST: u32 = 1000000;

// The words, and the number of transitions whose durations they tell.
#[derive(Clone, Copy)]
pub(crate) struct Durations<'a> {
    pub(crate) words: &'a [u32],
    pub(crate) transitions: usize,
    ghost shape: { ShapePasses words.now transitions },
}

impl<'a> Durations<'a> {
    // How long transition t lasts: at best its earliest duration, at worst its latest.
    pub(crate) fn lasts(&self, case: Case, t: usize) -> u32
        requires { t < self.now.transitions }
        ensures { result ≡ duration_of self.now.words.now case t }
    {
        match case {
            Case::Best => self.words[1 + t],
            Case::Worst => self.words[1 + self.transitions + t],
        }
    }

    // Whether the durations of transition t are out of order or too long. It is enough to compare the latest with the limit, since the earliest is not above it.
    fn fails(&self, t: usize) -> bool
        requires { t < self.now.transitions }
        ensures { result ≡ duration_fails self.now.words.now t }
    {
        let late = self.lasts(Case::Worst, t);
        if late < self.lasts(Case::Best, t) {
            return true;
        }
        LONGEST < late
    }
}

// Whether the words begin with the net's T and are 1 + 2 × T words.
fn shape_passes(words: &[u32], transitions: usize) -> bool
    requires { transitions ≤ 32 }
    ensures { result ≡ shape_passes words.now transitions }
{
    if words.len() != 1 + 2 * transitions {
        return false;
    }
    words[0] as usize == transitions
}

// Refusal 32: at no position if the shape is wrong, else at the lowest transition at fault, which is told as an entry (§7.66).
pub(crate) fn durations_fault(words: &[u32], transitions: usize) -> Verdict
    requires { transitions ≤ 32 }
    ensures { result ≡ verdict_of (durations_fault words.now transitions) }
{
    if !shape_passes(words, transitions) {
        return refusal::refuse(Reason::BadDuration, Position::Nothing);
    }
    let durations = Durations { words, transitions };
    for t in 0..transitions {
        if durations.fails(t) {
            return refusal::refuse(Reason::BadDuration, Position::Entry(t));
        }
    }
    Ok(())
}
