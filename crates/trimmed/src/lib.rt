// Schedules with nodes that the root does not reach (request #109): what trimming one answers (§10.35). The code that does it is the crate `trim`.
#![tactic(auto)]

use encoding::Lengths;
use refusal::Refusal;

// What trimming answers: the lengths in words of the trimmed schedule and of the list of old numbers, or a refusal.
pub type TrimAnswer = Result<Lengths, Refusal>;
