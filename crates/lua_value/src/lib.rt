//! The numbers of a program: whole numbers from -99,999,999,999,999 to 99,999,999,999,999.
//!
//! [`Num`] is the number; its arithmetic is exact or refused by a [`NumFault`]. [`Num::numeral`]
//! and [`Num::read`] read one from bytes and [`Num::text`] shows it; [`laws`] has the laws of the
//! definitions. [`is_blank`] says which bytes are blanks. No call of this crate takes memory.
#![tactic(auto)]

mod arithmetic;
mod decimal;
mod digits;
mod division;
mod hexadecimal;
pub mod laws;
mod num;
mod number_text;
mod numeral;
mod powers;
#[cfg(test)]
mod tests;

pub use arithmetic::NumFault;
pub use num::Num;
pub use number_text::is_blank;
pub use numeral::NumeralFault;
