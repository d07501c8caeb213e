// The minimal form of a schedule: §10.9.
#![tactic(auto)]

use refusal::Refusal;

// What the minimal form's call answers: the length in words of what it wrote, or a refusal.
pub type FormAnswer = Result<usize, Refusal>;
