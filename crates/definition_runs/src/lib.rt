// What a run of calls is, and what is claimed of runs: the statements are in specs/, their proofs in proofs/. There is no code.
#![tactic(auto)]
