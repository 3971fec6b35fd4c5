//! Where the operand of an instruction is.

// In a slot, or the constant of a number.
#[derive(Clone, Copy)]
pub(crate) enum Place {
    Slot(u32),
    Constant(u32),
}
