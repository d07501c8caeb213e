// Schedules with right arcs and stale counts (request #104): what mending one answers. The code that does it is the crate `mend`.
#![tactic(auto)]

use encoding::Lengths;
use refusal::Refusal;

// What mending answers: the lengths in words of the mended schedule and of the list of changes, or a refusal.
pub type MendAnswer = Result<Lengths, Refusal>;
