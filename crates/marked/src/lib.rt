// The marked cases (docs/SCOPE.md, 9): a table of what the definitions give beside what they are to give, in
// specs/Marked.antt, and one proof that the two agree, in proofs/Agrees.antt. There is no code.

#![tactic(auto)]
