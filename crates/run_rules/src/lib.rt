//! What the histories of a run say of its roles: what each did, by its script, and which trails are lawful.
//!
//! There is no code here but definitions, which contracts above cite.
#![tactic(auto)]
