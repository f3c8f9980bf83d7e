// No code: proofs/ has the cases that document 01 marks [P], as theorems of the definitions.
#![tactic(auto)]
