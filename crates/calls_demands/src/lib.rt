// The demands, stated about the definitions: theorems, no code. The contracts of `fitter` say what the code does.
#![tactic(auto)]
