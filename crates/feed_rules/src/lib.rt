// The rules of a feed as definitions, in specs/: the residual of one block, what one record does, and the text of a whole feed; their laws, and
// small feeds under a statement, in proofs/. There is no code here.
#![tactic(auto)]
