#![tactic(auto)]

// Document 01 as definitions is in specs/, its laws are in proofs/. There is no code here.
