//! What the message of a fault names.
ghost use Rattle.std.specs.Prelude.{◌≡◌, option_map};
ghost use Rattle.iso_explain_block.specs.Messages.{after};

/// What stands behind a beginning of a message, if it begins so.
pub(crate) fn after<'a>(beginning: &str, message: &'a str) -> Option<&'a str>
    ensures { option_map (λ r. r.now) result ≡ after beginning.now message.now }
{
    match message.strip_prefix(beginning) {
        Some(rest) => Some(rest),
        None => None,
    }
}
