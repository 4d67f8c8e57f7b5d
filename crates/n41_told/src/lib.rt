//! Whose each request is that is out, and what the answers to commands say of it. There are lemmas alone here, for the law of n41_once.
#![tactic(auto)]
