// No code: that the test of the domains' interfaces is exact (specs/).

#![tactic(auto)]
