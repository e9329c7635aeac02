// Laws of ℤ that the kit lacks, for the specs and proofs of the crates above. No code.
#![tactic(auto)]
