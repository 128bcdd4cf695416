// The snapshot's layout: its header, its records with their kinds and ACS registers, and the fabric
// that an accepted one describes.
#![tactic(auto)]

pub mod acs;
pub mod buses;
pub mod fabric;
pub mod kind;
pub mod kinds;
pub mod range;
pub mod record;
pub mod snapshot;

// The root complex, or the host, as a node, and what a root port has for a parent: the documents' number,
// which stands in a parent's field, in a hop and in the answer word.
pub const COMPLEX: u16 = 0xFFFF;
