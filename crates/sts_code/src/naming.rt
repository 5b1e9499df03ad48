//! Names of functions and labels.

ghost use Rattle.std.specs.Prelude.{◌≡◌};
ghost use Rattle.std.specs.List.{list_all};
ghost use Rattle.sts_code.specs.Name as def;

use crate::limits::MAX_NAME;

fn is_name_byte(byte: u8) -> bool
    ensures { result ≡ def.is_name_byte byte }
{
    byte.is_ascii_alphanumeric() || byte == b'_'
}

fn all_name_bytes(bytes: &[u8]) -> bool
    ensures { result ≡ list_all def.is_name_byte bytes.now }
{
    bytes.iter().all(|b| is_name_byte(*b))
}

fn begins_with_digit(bytes: &[u8]) -> bool
    ensures { result ≡ def.begins_with_digit bytes.now }
{
    match bytes {
        [] => false,
        [first, ..] => first.is_ascii_digit(),
    }
}

/// Is it a name: 1 to 32 letters, digits and underscores, the first of them no digit?
pub fn is_name(bytes: &[u8]) -> bool
    ensures { result ≡ def.is_name bytes.now }
{
    !bytes.is_empty()
        && bytes.len() <= MAX_NAME
        && all_name_bytes(bytes)
        && !begins_with_digit(bytes)
}
