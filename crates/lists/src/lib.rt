// Laws of lists for the specs and proofs of the crates above. No code.
#![tactic(auto)]
