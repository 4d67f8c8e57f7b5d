//! What a legal run says of the slots of its session: what ran there, and what became of each message. There are lemmas alone here, for
//! the law of n41_once.
#![tactic(auto)]
