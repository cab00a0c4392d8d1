// What the script program prints, as a definition of the bytes that it reads: mathematics only.

#![tactic(auto)]
