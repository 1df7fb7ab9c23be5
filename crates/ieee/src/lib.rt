// Binary64 answers against the logic's own account of IEEE 754. It holds statements and laws only, in specs/ and proofs/, and no code.
#![tactic(auto)]
