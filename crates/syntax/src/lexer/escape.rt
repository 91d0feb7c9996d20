//! Reads the escapes of a string.

ghost use Rattle.std.specs.Prelude.{◌≡◌, ◌≤◌, IfSome};
ghost use Rattle.syntax.specs.lexer.Escapes.{control, digit_count, hexadecimal, octal, escape_at, is_character, is_bad_escape};
ghost use Rattle.syntax.specs.lexer.Numbers.{is_octal_digit};

// Returns the character that a backslash and this one byte name.
fn control(byte: u8) -> Option<u32>
    ensures { result ≡ control byte }
{
    match byte {
        b'\\' => Some(u32::from(b'\\')),
        b'\'' => Some(u32::from(b'\'')),
        b'a' => Some(7),
        b'b' => Some(8),
        b't' => Some(9),
        b'n' => Some(10),
        b'v' => Some(11),
        b'f' => Some(12),
        b'r' => Some(13),
        _ => None,
    }
}

// Returns how many hexadecimal digits must follow this byte.
fn digit_count(byte: u8) -> Option<usize>
    ensures count { result ≡ digit_count byte }
    ensures bound { IfSome result (λ n. n ≤ 8) }
{
    match byte {
        b'x' => Some(2),
        b'u' => Some(4),
        b'U' => Some(8),
        _ => None,
    }
}

// Returns the number that the first `count` bytes write as hexadecimal digits, or `None` if they aren't digits.
#[tactic(auto, using(crate::proofs::Escapes::hex_steps))]
fn hexadecimal(bytes: &[u8], count: usize) -> Option<u32>
    requires { count ≤ 8 }
    ensures { result ≡ hexadecimal count 0 bytes.now }
{
    if bytes.len() < count {
        return None;
    }
    let mut value = 0;
    for index in 0..count {
        let Some(digit) = char::from(bytes[index]).to_digit(16) else {
            return None;
        };
        value = 16 * value + digit;
    }
    Some(value)
}

fn is_octal_digit(byte: u8) -> bool
    ensures { result ≡ is_octal_digit byte }
{
    matches!(byte, b'0'..=b'7')
}

// Returns the number that the octal digits at the front write, three at most, and how many they are.
#[tactic(auto, using(crate::proofs::Escapes::octal_steps))]
fn octal(bytes: &[u8]) -> (u32, usize)
    ensures { result ≡ octal 3 0 0 bytes.now }
{
    let mut value = 0;
    let mut size = 0;
    while size < 3 && size < bytes.len() && is_octal_digit(bytes[size]) {
        value = 8 * value + u32::from(bytes[size] - b'0');
        size += 1;
    }
    (value, size)
}

// Returns the number that an escape names, and how many bytes it has after the backslash. `bytes` follow the backslash. Returns `None` if
// they form no escape.
#[tactic(auto, using(crate::proofs::Escapes::escape_cases))]
pub(crate) fn escape_at(bytes: &[u8]) -> Option<(u32, usize)>
    ensures { result ≡ escape_at bytes.now }
{
    if bytes.is_empty() {
        return None;
    }
    let first = bytes[0];
    if is_octal_digit(first) {
        Some(octal(bytes))
    } else if let Some(count) = digit_count(first) {
        let code = hexadecimal(&bytes[1..], count)?;
        Some((code, count + 1))
    } else {
        let code = control(first)?;
        Some((code, 1))
    }
}

// Returns whether a character has this number.
fn is_character(code: u32) -> bool
    ensures { result ≡ is_character code }
{
    char::from_u32(code).is_some()
}

// Returns whether these bytes, after a backslash, form an escape that names no character.
pub(crate) fn is_bad_escape(bytes: &[u8]) -> bool
    ensures { result ≡ is_bad_escape bytes.now }
{
    match escape_at(bytes) {
        Some((code, _)) => !is_character(code),
        None => false,
    }
}
