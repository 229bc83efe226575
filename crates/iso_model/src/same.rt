//! Whether two parts of scripts say the same: whether contracts see them as equal. None takes
//! memory; each goes over both parts once at most, and recurses down their nesting alone.

pub mod expressions;
pub mod heads;
pub mod statements;
