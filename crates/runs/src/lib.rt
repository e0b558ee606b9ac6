//! Histories of calls: what follows from them by a step table, and what every history keeps.
#![tactic(auto)]
