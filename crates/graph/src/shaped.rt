// A schedule's words that 6 and 7 let pass, as a type: V and K are within their limits, and the words are as long as they say.
ghost use Rattle.std.specs.Prelude.{◌≡◌, IfOk};
ghost use Rattle.refusal.specs.Verdict.{verdict_of, verdict_alone};
ghost use Rattle.sequential.specs.Check.{shape_fault};
ghost use Rattle.sequential.specs.Known.{ShapePasses};

use super::word_check;
use refusal::Refusal;

#[derive(Clone, Copy)]
pub(crate) struct Shaped<'a> {
    pub words: &'a [u32],
    ghost shape: { ShapePasses words.now },
}

impl<'a> Shaped<'a> {
    // Refusals 6 and 7, or the schedule.
    pub(crate) fn read(sheet: &'a [u32]) -> Result<Shaped<'a>, Refusal>
        ensures told { verdict_alone result ≡ verdict_of (shape_fault sheet.now) }
        ensures same { IfOk result (λ s. s.words.now ≡ sheet.now) }
    {
        word_check::shape_fault(sheet)?;
        Ok(Shaped { words: sheet })
    }
}
