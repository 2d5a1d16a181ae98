// The bit layout of document 01, as definitions (specs/) with their laws (proofs/). No code: the layers above cite it.
#![tactic(auto)]
