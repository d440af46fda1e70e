// What the two calls leave, and demand 3: definitions and theorems, no code.
#![tactic(auto)]
