// The bytes of a section after its relocations, and what is read back out of them: definitions and theorems, no code.
#![tactic(auto)]
