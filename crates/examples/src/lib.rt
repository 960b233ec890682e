// The examples of document 01 that are marked P: specs/Examples.antt has them, in its order, and
// proofs/Examples.antt proves them. There is no code here.
#![tactic(auto)]
