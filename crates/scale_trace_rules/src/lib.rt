// The rules of the listing as definitions, in specs/: which m scaling uses at an index and which rule supplies it, the lines of a block, and the
// listing of a whole feed; what they have to do with the rules of scaling, and small feeds under a statement, in proofs/. There is no code here.
#![tactic(auto)]
