// One schedule for each source, composed (request #108): what composing answers. The code that does it is the crate `compose`.
#![tactic(auto)]

use lending::Fault;

// The limit of composition.
#[derive(Clone, Copy)]
pub struct Composition {}

impl Composition {
    pub const SHEETS: usize = 4; // §7.28
}

// What composing answers: the length in words of what it wrote, or a refusal and the index of the schedule that is refused.
pub type ComposeAnswer = Result<usize, Fault>;
