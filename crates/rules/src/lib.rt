// An inner crate without code: the rules that a ticket and an image must keep, the definition of the verdict, and
// demand 3, the claim about the whole way home, with its proof.

#![tactic(auto)]
