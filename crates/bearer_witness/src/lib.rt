// No code: a run that demand 3 speaks of, at the real constants, and what is seen of it.

#![tactic(auto)]
