//! What a kept journal says of what is put, taken and out, and of its one session. There are lemmas alone here, for the law of n41_once.
#![tactic(auto)]
