//! What a live task keeps of its run, so that its letters tell it: a search that it has been told what all lines of its shards say, and a
//! query that it reads all of them.
//!
//! It computes nothing: what it has is definitions, and lemmas over them.
#![tactic(auto)]
