// The Borsh specification's formats: definitions and proofs alone.
#![tactic(auto)]
