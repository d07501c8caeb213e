// Reaction times (§10.46, request #112): what reporting them answers. The code that works them out is the crate `react`.
#![tactic(auto)]

use refusal::Refusal;

// The length in words of the report, or a refusal. `refusal::plain` gives its plain numbers: §8.1.
pub type ReactionAnswer = Result<usize, Refusal>;
