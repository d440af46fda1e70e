// The judgement of an install, and its plan: definitions and theorems, no code.
#![tactic(auto)]
