//! Which bids a recording misses (request W1): the line of each of its packets, of a range of ports, and what is printed of a recording. No code: read
//! specs/. `missed` prints it.
#![tactic(auto)]
