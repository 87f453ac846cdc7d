// Nothing runs here: this crate is the mathematics of the judge, in specs/ and proofs/.
#![tactic(auto)]
