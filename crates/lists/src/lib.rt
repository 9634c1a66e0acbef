// Lists by place, and laws on lists and choices, which name nothing of the flash: definitions and proofs alone.
#![tactic(auto)]
