// The canonical key of a type: its bits, the node table, trees, what the lent words hold of them, and what is proved of all that. The code is the store's alone.
#![tactic(auto)]

pub mod store;
