//! What a machine does for a run of a program: the relation between the two, and agreement from it.
//! Nothing here knows of sources.
#![tactic(auto)]
