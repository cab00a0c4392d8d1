// No code: plain mathematics that several crates use, in specs/.

#![tactic(auto)]
