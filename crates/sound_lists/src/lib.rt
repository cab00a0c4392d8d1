// A list in lent tables walked along its links: each slot that is met is marked in the work area, and what was met is counted.

#![tactic(auto)]

pub mod walks;
