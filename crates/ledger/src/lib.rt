// The ledger of document 01 and what is claimed of every list of calls: definitions and proofs alone.
#![tactic(auto)]
