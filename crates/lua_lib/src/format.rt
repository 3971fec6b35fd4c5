//! What `string.format` reads and writes (Lua 5.1 manual §5.4): the items `%d %s %x %X %c %%` with
//! the flags `-` and `0` and a width of at most two digits.

mod items;
mod reading;
mod writing;

pub use items::Item;
pub use reading::{Directive, read_directive};
pub use writing::{put_hexadecimal, put_padded, put_whole};
