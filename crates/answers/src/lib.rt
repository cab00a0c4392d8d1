// What the steps and calls answer (document 01, "Memory and who can be refused").

#![tactic(auto)]

use refusals::Refusal;

// A value, 0 where there is none; or a refusal.
pub type Answer = Result<u64, Refusal>;
