// Scaling lists as the bits that are written of them: definitions, and the theorems that the reader gets the lists back and that equal
// bits mean equal lists.
#![tactic(auto)]
