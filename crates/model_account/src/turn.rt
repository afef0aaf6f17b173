use crate::draw::Draw;
use crate::said::Said;

/// A step that was drawn, what the core answered, what the second account says, and whether the state that the core left
/// is as that account has it.
#[derive(Clone, Copy)]
pub struct Turn {
    pub draw: Draw,
    pub said: Said,
    pub wanted: Said,
    pub is_told: bool,
}
