//! What no contract says: that the definitions are those of the standards, and that each call
//! succeeds where there is memory.

mod digests;
mod encodings;
