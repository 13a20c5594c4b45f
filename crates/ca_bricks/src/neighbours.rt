//! The neighbours of a cell that a rule counts, each choice a type of its own, so that the code that counts
//! them is made for each.

/// All eight of them.
pub struct EightNeighbours;

/// The four that share a side with it.
pub struct FourNeighbours;

/// Six of them: all but the north-east and the south-west one.
pub struct SixNeighbours;
