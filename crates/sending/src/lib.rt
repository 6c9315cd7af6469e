// No code: specs/ says in which order a restore list sends what differs, proofs/ why every write of it is accepted and none can be spared.
#![tactic(auto)]
