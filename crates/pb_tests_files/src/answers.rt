//! Answers to the questions of a test. If memory was refused, each answer is false.

use pb_data::Text;

/// Returns whether an answer came, and is true.
pub fn holds<E: Drop>(answer: Result<bool, E>) -> bool {
    matches!(answer, Ok(true))
}

/// Returns whether a text was made, and is this.
pub fn is_said<E: Drop>(made: Result<String, E>, wanted: &str) -> bool {
    match made {
        Ok(text) => text.as_str() == wanted,
        Err(_) => false,
    }
}

/// Returns whether a `Text` was made, and is this.
pub fn is_text<E: Drop>(made: Result<Text, E>, wanted: &str) -> bool {
    match made {
        Ok(text) => text.as_str() == wanted,
        Err(_) => false,
    }
}
