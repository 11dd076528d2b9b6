//! Laws of matching: the dump of each trap of a valid module can be one of that module.
#![tactic(auto)]

pub mod laws;
