//! Events through one queue: on one thread, and by many threads at once.

mod crowds;
mod posts;
mod turns;
