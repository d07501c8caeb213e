// A net's words that 1 and 2 let pass, as a type: its sizes are in range, and the words are as long as they say.
ghost use Rattle.std.specs.Prelude.{◌≡◌, IfOk};
ghost use Rattle.refusal.specs.Verdict.{verdict_of, verdict_alone};
ghost use Rattle.net.specs.Known.{Known};
ghost use Rattle.net.specs.Check.{shape_fault};

use super::word_check;
use refusal::Refusal;

#[derive(Clone, Copy)]
pub(crate) struct Shaped<'a> {
    pub words: &'a [u32],
    ghost known: { Known words.now },
}

impl<'a> Shaped<'a> {
    // Refusals 1 and 2, or the net.
    pub(crate) fn read(net: &'a [u32]) -> Result<Shaped<'a>, Refusal>
        ensures told { verdict_alone result ≡ verdict_of (shape_fault net.now) }
        ensures same { IfOk result (λ s. s.words.now ≡ net.now) }
    {
        word_check::shape_fault(net)?;
        Ok(Shaped { words: net })
    }
}
