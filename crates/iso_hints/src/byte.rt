//! Kinds of bytes.
ghost use Rattle.std.specs.Prelude.{◌≡◌};
ghost use Rattle.iso_hints.specs.Bytes.{ends_statement, in_name, is_blank, is_operator_byte};

/// Whether a byte is a letter, a digit or an underscore.
pub(crate) fn in_name(byte: u8) -> bool
    ensures { result ≡ in_name byte }
{
    byte.is_ascii_alphanumeric() || byte == b'_'
}

/// Whether a byte may stand between tokens.
pub(crate) fn is_blank(byte: u8) -> bool
    ensures { result ≡ is_blank byte }
{
    matches!(byte, b' ' | b'\t' | b'\r' | b'\n')
}

/// Whether a statement or a head ends with a byte.
pub(crate) fn ends_statement(byte: u8) -> bool
    ensures { result ≡ ends_statement byte }
{
    matches!(byte, b';' | b'{' | b'}')
}

/// Whether an operator has a byte.
pub(crate) fn is_operator_byte(byte: u8) -> bool
    ensures { result ≡ is_operator_byte byte }
{
    matches!(byte, b'+' | b'-' | b'*' | b'=' | b'<' | b'!')
}
