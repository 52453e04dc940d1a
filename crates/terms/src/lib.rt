// Terms as bytes: read, taken apart, searched and renamed. What is promised speaks of the trees that the bytes write.
#![tactic(auto)]

mod finding;
mod head;
mod names;
mod node;
mod reading;
mod renamer;
mod stretch;
mod term;
mod walks;

pub use finding::Place;
pub use head::{Head, Parts};
pub use names::Renaming;
pub use node::Node;
pub use reading::{LONGEST_TERM, read};
pub use term::Term;
