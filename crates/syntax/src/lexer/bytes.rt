//! Classifies the bytes that tokens are made of.

ghost use Rattle.std.specs.Prelude.{◌≡◌};
ghost use Rattle.syntax.specs.lexer.Bytes.{is_letter, continues_word, is_blank, newlines, opens_raw, opens_format};

// Returns whether the byte is a letter or an underscore.
pub(crate) fn is_letter(byte: u8) -> bool
    ensures { result ≡ is_letter byte }
{
    byte.is_ascii_alphabetic() || byte == b'_'
}

// Returns whether the byte can follow the first byte of a word.
pub(crate) fn continues_word(byte: u8) -> bool
    ensures { result ≡ continues_word byte }
{
    is_letter(byte) || byte.is_ascii_digit()
}

// Returns whether the byte is a blank, with `depth` brackets open. A newline is a blank inside brackets.
pub(crate) fn is_blank(depth: usize, byte: u8) -> bool
    ensures { result ≡ is_blank depth byte }
{
    if byte == b'\n' {
        depth > 0
    } else {
        byte == b' ' || byte == b'\t' || byte == b'\r'
    }
}

// Returns whether the bytes begin with three quotes, which open a raw string.
pub(crate) fn opens_raw(bytes: &[u8]) -> bool
    ensures { result ≡ opens_raw bytes.now }
{
    bytes.len() > 2 && bytes[0] == b'\'' && bytes[1] == b'\'' && bytes[2] == b'\''
}

// Returns whether the bytes begin with `f'`, which opens an f-string.
pub(crate) fn opens_format(bytes: &[u8]) -> bool
    ensures { result ≡ opens_format bytes.now }
{
    bytes.len() > 1 && bytes[0] == b'f' && bytes[1] == b'\''
}

/// Returns the number of newlines.
pub fn newlines(bytes: &[u8]) -> usize
    ensures { result ≡ newlines bytes.now }
{
    bytes.iter().filter(|byte| **byte == b'\n').count()
}
