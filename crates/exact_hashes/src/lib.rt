// No code: that the test of the regions' hashes is exact (specs/).

#![tactic(auto)]
