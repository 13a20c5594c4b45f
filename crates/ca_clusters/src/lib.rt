//! The clusters of a plane: the parts of its finest division, which come back and never meet, and the objects that they consist of.
#![tactic(auto)]

mod budget;
mod earlier;
mod fault;
mod meetings;
mod merging;
mod objects;
mod part;
mod region;
mod regions;
mod search;
mod shift;
mod sweep;

pub use earlier::earlier_clusters;
pub use fault::ClusterFault;
pub use objects::objects_of;
pub use regions::find_clusters;
