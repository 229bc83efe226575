//! What each byte begins, and which bytes stand in names.
ghost use Rattle.std.specs.Prelude.{◌≡◌};
ghost use Rattle.iso_script_lexer.specs.Spelling.{in_name};
ghost use Rattle.iso_script_lexer.specs.Scan.{begun_by};

/// `a` at each letter, `0` at each digit, `/` at what stands in gaps or begins a comment, a quote
/// and what symbols begin with at their own places, and a point at each other byte.
static BEGUN: [u8; 256] = *b"\
    .........//../..................\
    /!\".....()*+,-./0000000000.;<=..\
    .aaaaaaaaaaaaaaaaaaaaaaaaaa.....\
    .aaaaaaaaaaaaaaaaaaaaaaaaaa{.}..\
    ................................\
    ................................\
    ................................\
    ................................";

/// Each byte of a name at its own place, and a point at each other byte.
static IN_NAME: [u8; 256] = *b"\
    ................................\
    ................0123456789......\
    .ABCDEFGHIJKLMNOPQRSTUVWXYZ...._\
    .abcdefghijklmnopqrstuvwxyz.....\
    ................................\
    ................................\
    ................................\
    ................................";

/// What a byte begins, looked up in a table.
pub(crate) fn begun_by(byte: u8) -> u8
    ensures { result ≡ begun_by byte }
{
    BEGUN[usize::from(byte)]
}

/// Whether a byte stands in names, looked up in a table.
pub(crate) fn is_name_byte(byte: u8) -> bool
    ensures { result ≡ in_name byte }
{
    IN_NAME[usize::from(byte)] != b'.'
}
