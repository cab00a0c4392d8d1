// Mathematics only: the tests of sound_capas are exact.

#![tactic(auto)]
