// H.265, clause 8.6, as definitions, in specs/; their laws and the marked examples of the requirements, in proofs/. There is no code here.
#![tactic(auto)]
