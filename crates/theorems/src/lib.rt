// No code: what is said of the definitions is in specs/, and what edits of must-fail/ break is proved in proofs/.
#![tactic(auto)]
