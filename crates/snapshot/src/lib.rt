// Layer 4 of the transaction store: the snapshot writer and the four calls.
#![tactic(auto)]

pub mod calls; // the four calls: Open, Import, Withdraw and Snapshot
pub mod snapshot; // Snapshot
pub mod writer; // the pieces of a snapshot, each written where it fits, and measured in any case
