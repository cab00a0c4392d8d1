// Mathematics only: the test of the ring is exact.

#![tactic(auto)]
