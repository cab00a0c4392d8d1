// No code: that the test of the region tree is exact (specs/).

#![tactic(auto)]
