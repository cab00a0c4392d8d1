// The test of pools and slot lists is exact: mathematics only.

#![tactic(auto)]
