//! Numbers, as words have them.

/// A number from 0 to 4,294,967,295, of digits alone. Takes no memory.
pub(crate) fn read_number(word: &str) -> Option<u32> {
    if !word.bytes().all(|byte| byte.is_ascii_digit()) {
        return None;
    }
    word.parse::<u32>().ok()
}
