// What the unit promises, in one place: the demands over every call, with worked examples. It holds statements and laws only, in specs/ and proofs/, and no code.
#![tactic(auto)]
