// The three demands, each made up of what is promised, and the examples from the bench: statements in specs/, their proofs in proofs/. There is no code here.
#![tactic(auto)]
