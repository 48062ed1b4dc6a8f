// How many words a run's room has, as C asks for them: definitions and their laws, in specs/. `mensorique_c` has the call.
#![tactic(auto)]
