//! What a data worker's core keeps of a live task and of its shards, by what is known of the run: that it works for what it was asked, and
//! that the shards of an index which the run does not write are as its lines make them. So its letters tell that.
//!
//! It computes nothing: what it has is definitions, and lemmas over them.
#![tactic(auto)]
