//! Checks the names of options.

ghost use Rattle.std.specs.Prelude.{◌≡◌};
ghost use Rattle.std.specs.List.{list_all};
ghost use Rattle.options.specs.option_file.Names.{in_name, is_option_name};

// Returns whether the byte may be in the name of an option.
fn in_name(byte: u8) -> bool
    ensures { result ≡ in_name byte }
{
    byte.is_ascii_alphanumeric() || byte == b'_' || byte == b'-'
}

fn are_in_name(bytes: &[u8]) -> bool
    ensures { result ≡ list_all in_name bytes.now }
{
    bytes.iter().all(|byte| in_name(*byte))
}

/// Returns whether a text is a valid name of an option: at least one letter, digit, underscore or minus, and nothing else.
pub fn is_option_name(text: &str) -> bool
    ensures { result ≡ is_option_name text.now }
{
    let bytes = text.as_bytes();
    !bytes.is_empty() && are_in_name(bytes)
}
