//! Writes paths and values, with a `$` before each byte that Ninja would read differently (Ninja manual, “Lexical syntax”).
ghost use Rattle.std.specs.Prelude.{◌≡◌, [], ◌∷◌, ◌++◌, MatchOption};
ghost use Rattle.ports.specs.Endings.{ending_of_result};
ghost use Rattle.ports.specs.Outputs.{IsOpen, Writes, puts};
ghost use Rattle.std.specs.List.{flat_map, list_all};
ghost use Rattle.ninja.specs.Escapes.{path_byte_text, value_byte_text, value_rest_text, starts_with_space, leading_dollar};
ghost use Rattle.ninja.specs.Escapes.{path_text};
ghost use Rattle.ninja.specs.Escapes.{value_text};
ghost use Rattle.ninja.specs.Words.{quoted_byte};
ghost use Rattle.ninja.specs.Places.{byte_text, stays};

use ports::{DeviceFault, Outputs, put_all};

/// Says by which rules bytes are escaped: by those of where they are.
#[derive(Clone, Copy)]
pub enum EscapeMode {
    InPath,
    InValue,
    /// In a value, between a shell's single quotes.
    InQuotes,
}

fn path_escape(byte: u8) -> Option<&'static [u8]>
    ensures { MatchOption result (path_byte_text byte ≡ byte ∷ []) (λ text. path_byte_text byte ≡ text.now) }
{
    match byte {
        b'$' => Some(b"$$"),
        b' ' => Some(b"$ "),
        b':' => Some(b"$:"),
        _ => None,
    }
}

fn value_escape(byte: u8) -> Option<&'static [u8]>
    ensures { MatchOption result (value_byte_text byte ≡ byte ∷ []) (λ text. value_byte_text byte ≡ text.now) }
{
    match byte {
        b'$' => Some(b"$$"),
        _ => None,
    }
}

fn quoted_escape(byte: u8) -> Option<&'static [u8]>
    ensures { MatchOption result (value_rest_text (quoted_byte byte) ≡ byte ∷ []) (λ text. value_rest_text (quoted_byte byte) ≡ text.now) }
{
    match byte {
        b'\'' => Some(b"'\"'\"'"),
        b'$' => Some(b"$$"),
        _ => None,
    }
}

impl EscapeMode {
    // Returns the text for the byte, or `None` if the byte is written as itself.
    fn escape(self, byte: u8) -> Option<&'static [u8]>
        ensures { MatchOption result (byte_text self byte ≡ byte ∷ []) (λ text. byte_text self byte ≡ text.now) }
    {
        match self {
            EscapeMode::InPath => path_escape(byte),
            EscapeMode::InValue => value_escape(byte),
            EscapeMode::InQuotes => quoted_escape(byte),
        }
    }

    // Returns whether the byte is written as itself.
    fn keeps(self, byte: u8) -> bool
        ensures { result ≡ stays self byte }
    {
        match self {
            EscapeMode::InPath => !matches!(byte, b'$' | b' ' | b':'),
            EscapeMode::InValue => byte != b'$',
            EscapeMode::InQuotes => !matches!(byte, b'\'' | b'$'),
        }
    }
}

fn all_stay(place: EscapeMode, bytes: &[u8]) -> bool
    ensures { result ≡ list_all (stays place) bytes.now }
{
    bytes.iter().all(|byte| place.keeps(*byte))
}

fn write_byte<O: Outputs>(place: EscapeMode, byte: u8, out: &mut O) -> Result<(), DeviceFault>
    requires { IsOpen (O.seen out.old) }
    ensures { Writes (O.seen out.old) (puts (byte_text place byte)) (ending_of_result result) (O.seen out.new) }
{
    match place.escape(byte) {
        Some(escaped) => put_all(out, escaped),
        None => put_all(out, &[byte]),
    }
}

#[tactic(auto, using(ports::proofs::Sending::writing))]
fn write_each<O: Outputs>(place: EscapeMode, bytes: &[u8], out: &mut O) -> Result<(), DeviceFault>
    requires { IsOpen (O.seen out.old) }
    ensures { Writes (O.seen out.old) (flat_map (λ b. puts (byte_text place b)) bytes.now) (ending_of_result result) (O.seen out.new) }
{
    for byte in bytes {
        write_byte(place, *byte, out)?;
    }
    Ok(())
}

/// Writes bytes in this mode, with a single call if each is written as itself.
pub fn write_escaped<O: Outputs>(
    place: EscapeMode,
    bytes: &[u8],
    out: &mut O,
) -> Result<(), DeviceFault>
    requires { IsOpen (O.seen out.old) }
    ensures { Writes (O.seen out.old) (puts (flat_map (byte_text place) bytes.now)) (ending_of_result result) (O.seen out.new) }
{
    if all_stay(place, bytes) {
        put_all(out, bytes)
    } else {
        write_each(place, bytes, out)
    }
}

/// Writes a path, with a `$` before each dollar sign, space and colon.
pub fn write_path<O: Outputs>(path: &str, out: &mut O) -> Result<(), DeviceFault>
    requires { IsOpen (O.seen out.old) }
    ensures { Writes (O.seen out.old) (puts (path_text path.now)) (ending_of_result result) (O.seen out.new) }
{
    write_escaped(EscapeMode::InPath, path.as_bytes(), out)
}

fn starts_with_space(bytes: &[u8]) -> bool
    ensures { result ≡ starts_with_space bytes.now }
{
    matches!(bytes, [b' ', ..])
}

// Returns the `$` that keeps Ninja from dropping a leading space.
fn leading_dollar(value: &[u8]) -> &'static [u8]
    ensures { result.now ≡ leading_dollar value.now }
{
    if starts_with_space(value) { b"$" } else { b"" }
}

#[tactic(auto, using(ports::proofs::Sending::writing))]
fn write_value_bytes<O: Outputs>(value: &[u8], out: &mut O) -> Result<(), DeviceFault>
    requires { IsOpen (O.seen out.old) }
    ensures { Writes (O.seen out.old) (puts (leading_dollar value.now) ++ puts (value_rest_text value.now)) (ending_of_result result)
        (O.seen out.new) }
{
    put_all(out, leading_dollar(value))?;
    write_escaped(EscapeMode::InValue, value, out)
}

/// Writes a value, with a `$` before each dollar sign and before a leading space.
pub fn write_value<O: Outputs>(value: &str, out: &mut O) -> Result<(), DeviceFault>
    requires { IsOpen (O.seen out.old) }
    ensures { Writes (O.seen out.old) (puts (value_text value.now)) (ending_of_result result) (O.seen out.new) }
{
    write_value_bytes(value.as_bytes(), out)
}
