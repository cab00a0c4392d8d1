// That the test of the trackers is exact: mathematics only.

#![tactic(auto)]
