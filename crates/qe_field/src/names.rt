//! Names of fields.

ghost use Rattle.std.specs.Prelude.{◌≡◌, ◌||◌, ◌==◌, slice_index};
ghost use Rattle.std.specs.Char.{is_ascii_alphabetic};
ghost use Rattle.qe_field.specs.Names as names;

// The byte at a place, and 0 behind the last one.
fn byte_at(bytes: &[u8], place: usize) -> u8
    ensures { result ≡ slice_index bytes.now place }
{
    match bytes.get(place) {
        Some(byte) => *byte,
        None => 0,
    }
}

/// Whether the name begins with `$`, or with `_` twice.
pub fn is_reserved(name: &str) -> bool
    ensures { result ≡ names.is_reserved name.now }
{
    let bytes = name.as_bytes();
    byte_at(bytes, 0) == b'$' || (byte_at(bytes, 0) == b'_' && byte_at(bytes, 1) == b'_')
}

fn is_word(bytes: &[u8]) -> bool
    ensures { result ≡ names.is_word bytes.now }
{
    bytes
        .iter()
        .all(|byte| byte.is_ascii_alphanumeric() || *byte == b'_')
}

fn begins_with_letter(bytes: &[u8]) -> bool
    ensures { result ≡ is_ascii_alphabetic (slice_index bytes.now 0) }
{
    match bytes.first() {
        Some(byte) => byte.is_ascii_alphabetic(),
        None => false,
    }
}

/// Whether the text is 1 to 64 ASCII letters, digits and `_`, beginning with a letter.
pub fn is_path(text: &str) -> bool
    ensures { result ≡ names.is_path text.now }
{
    let bytes = text.as_bytes();
    bytes.len() <= 64 && begins_with_letter(bytes) && is_word(bytes)
}
