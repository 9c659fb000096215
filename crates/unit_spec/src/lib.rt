//! No code: what Layer 2 units are, as they are written and as they are read, and the laws of both. `unit` writes and reads them.
//! Read specs/.
#![tactic(auto)]
