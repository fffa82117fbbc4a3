// Laws of the rules of an edited block, in proofs/. There is no code here.
#![tactic(auto)]
