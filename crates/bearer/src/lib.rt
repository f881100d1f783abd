// No code: the rule of document 01, the two machines that the engines' contracts cite, and demand 3.

#![tactic(auto)]
