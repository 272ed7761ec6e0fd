//! What is wrong with an operation whose members are right: its block.
//!
//! The reader refuses such an operation for its place alone. So its name and the operation before it say what is wrong.

use crate::explanation::scope::text_at;
use crate::explanation::why::{Stray, Wrong};
use serde_json::Value;

/// What is wrong with the block of an operation, behind these operations of its list.
pub(crate) fn of_block(operation: &Value, before: &[Value]) -> Wrong {
    match text_at(operation, "op") {
        Some("if") if !may_branch(before.last()) => Wrong::Block(Stray::NoItem),
        Some("if" | "repeat") => Wrong::Block(Stray::Open),
        Some("else") => Wrong::Block(Stray::NoFirstElse),
        Some("end") => Wrong::Block(Stray::NoIf),
        Some("again") => Wrong::Block(Stray::NoRepeat),
        _ => Wrong::Refused,
    }
}

/// Whether an `if` directly behind this operation has an item to test.
fn may_branch(before: Option<&Value>) -> bool {
    match before.and_then(|operation| text_at(operation, "op")) {
        Some("receive" | "check" | "if" | "else") => true,
        _ => false,
    }
}
