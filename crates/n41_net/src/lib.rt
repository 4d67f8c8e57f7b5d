//! What is under way between a client and a server, the life of the session, and the verdicts of what a server answers. There are lemmas
//! alone here, for the law of n41_once.
#![tactic(auto)]
