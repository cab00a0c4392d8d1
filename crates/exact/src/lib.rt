// Mathematics only: the test of lent tables is exact.

#![tactic(auto)]
