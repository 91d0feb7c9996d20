//! Writes the words of a command, quoted for a POSIX shell.
ghost use Rattle.std.specs.Prelude.{◌≡◌, true, IsTrue, ◌&&◌, not, option_map, if◌then◌else◌};
ghost use Rattle.ports.specs.Endings.{ending_of_result};
ghost use Rattle.ports.specs.Outputs.{IsOpen, Writes, puts};
ghost use Rattle.build.specs.edge.Texts.{texts};
ghost use Rattle.ninja.specs.Shell.{is_bare_byte, is_reserved, has_equals, is_no_first_word};
ghost use Rattle.ninja.specs.Escapes.{value_rest_text, value_text};
ghost use Rattle.ninja.specs.Words.{first_word_text, is_all_bare, is_bare, single_quoted_word, word_text, words_text};
ghost use Rattle.ninja.specs.Steps.{last_words_steps, later_word_steps, later_words_steps, lone_redirect_steps, quoted_steps};
ghost use Rattle.ninja.specs.Steps.{redirect_steps, words_steps};

use crate::escapes::{EscapeMode, write_escaped};
use ports::{DeviceFault, Outputs, put_all};

fn is_bare_word_byte(byte: u8) -> bool
    ensures { result ≡ is_bare_byte byte }
{
    matches!(byte, b'a'..=b'z' | b'A'..=b'Z' | b'-'..=b':' | b'_' | b'@' | b'%' | b'+' | b'=' | b',')
}

fn are_bare_bytes(word: &str) -> bool
    ensures { result ≡ is_all_bare word.now }
{
    word.as_bytes().iter().all(|byte| is_bare_word_byte(*byte))
}

fn is_bare_word(word: &str) -> bool
    ensures { result ≡ is_bare word.now }
{
    !word.is_empty() && are_bare_bytes(word)
}

fn has_equals_sign(word: &str) -> bool
    ensures { result ≡ has_equals word.now }
{
    word.as_bytes().contains(&b'=')
}

fn is_reserved_word(word: &str) -> bool
    ensures { result ≡ is_reserved word.now }
{
    matches!(
        word,
        "case"
            | "do"
            | "done"
            | "elif"
            | "else"
            | "esac"
            | "fi"
            | "for"
            | "if"
            | "in"
            | "then"
            | "until"
            | "while"
    )
}

fn is_bare_first_word(word: &str) -> bool
    ensures { result ≡ (is_bare word.now && not (is_no_first_word word.now)) }
{
    is_bare_word(word) && !has_equals_sign(word) && !is_reserved_word(word)
}

#[tactic(auto, using(ports::proofs::Sending::writing))]
fn write_quoted<O: Outputs>(word: &str, out: &mut O) -> Result<(), DeviceFault>
    requires { IsOpen (O.seen out.old) }
    ensures { Writes (O.seen out.old) (quoted_steps word.now) (ending_of_result result) (O.seen out.new) }
{
    put_all(out, b"'")?;
    write_escaped(EscapeMode::InQuotes, word.as_bytes(), out)?;
    put_all(out, b"'")
}

// Writes a word, bare or in quotes.
fn write_word_as<O: Outputs>(word: &str, bare: bool, out: &mut O) -> Result<(), DeviceFault>
    requires open { IsOpen (O.seen out.old) }
    requires bare { IsTrue bare → is_bare word.now ≡ true }
    ensures { Writes (O.seen out.old) (puts (value_rest_text (if bare then word.now else single_quoted_word word.now)))
        (ending_of_result result)
        (O.seen out.new) }
{
    if bare {
        put_all(out, word.as_bytes())
    } else {
        write_quoted(word, out)
    }
}

fn write_word<O: Outputs>(word: &str, out: &mut O) -> Result<(), DeviceFault>
    requires { IsOpen (O.seen out.old) }
    ensures { Writes (O.seen out.old) (puts (value_rest_text (word_text word.now))) (ending_of_result result) (O.seen out.new) }
{
    write_word_as(word, is_bare_word(word), out)
}

fn write_first_word<O: Outputs>(word: &str, out: &mut O) -> Result<(), DeviceFault>
    requires { IsOpen (O.seen out.old) }
    ensures { Writes (O.seen out.old) (puts (value_rest_text (first_word_text word.now))) (ending_of_result result) (O.seen out.new) }
{
    write_word_as(word, is_bare_first_word(word), out)
}

#[tactic(auto, using(ports::proofs::Sending::writing))]
fn write_later_word<O: Outputs>(word: &str, out: &mut O) -> Result<(), DeviceFault>
    requires { IsOpen (O.seen out.old) }
    ensures { Writes (O.seen out.old) (later_word_steps word.now) (ending_of_result result) (O.seen out.new) }
{
    put_all(out, b" ")?;
    write_word(word, out)
}

#[tactic(auto, using(ports::proofs::Sending::writing))]
fn write_later_words<O: Outputs>(words: &[String], out: &mut O) -> Result<(), DeviceFault>
    requires { IsOpen (O.seen out.old) }
    ensures { Writes (O.seen out.old) (later_words_steps words.now) (ending_of_result result) (O.seen out.new) }
{
    for word in words {
        write_later_word(word, out)?;
    }
    Ok(())
}

/// Writes words after those of a command that has a first word.
#[tactic(auto, using(ports::proofs::Sending::writing))]
pub fn write_last_words<O: Outputs>(words: &[&str], out: &mut O) -> Result<(), DeviceFault>
    requires { IsOpen (O.seen out.old) }
    ensures { Writes (O.seen out.old) (last_words_steps words.now) (ending_of_result result) (O.seen out.new) }
{
    for word in words {
        write_later_word(word, out)?;
    }
    Ok(())
}

#[tactic(auto, using(ports::proofs::Sending::writing))]
fn write_redirect<O: Outputs>(redirect: Option<&str>, out: &mut O) -> Result<(), DeviceFault>
    requires { IsOpen (O.seen out.old) }
    ensures { Writes (O.seen out.old) (redirect_steps (option_map (λ s. s.now) redirect.entry)) (ending_of_result result) (O.seen out.new) }
{
    match redirect {
        None => Ok(()),
        Some(name) => {
            put_all(out, b" > ")?;
            write_word(name, out)
        }
    }
}

#[tactic(auto, using(ports::proofs::Sending::writing))]
fn write_lone_redirect<O: Outputs>(redirect: Option<&str>, out: &mut O) -> Result<(), DeviceFault>
    requires { IsOpen (O.seen out.old) }
    ensures { Writes (O.seen out.old) (lone_redirect_steps (option_map (λ s. s.now) redirect.entry)) (ending_of_result result)
        (O.seen out.new) }
{
    match redirect {
        None => Ok(()),
        Some(name) => {
            put_all(out, b"> ")?;
            write_word(name, out)
        }
    }
}

#[tactic(auto, using(ports::proofs::Sending::writing))]
fn write_words_from<O: Outputs>(
    first: &str,
    later: &[String],
    redirect: Option<&str>,
    out: &mut O,
) -> Result<(), DeviceFault>
    requires { IsOpen (O.seen out.old) }
    ensures { Writes (O.seen out.old) (words_steps first.now later.now (option_map (λ s. s.now) redirect.entry)) (ending_of_result result)
        (O.seen out.new) }
{
    write_first_word(first, out)?;
    write_later_words(later, out)?;
    write_redirect(redirect, out)
}

/// Writes a command's words as a value, each quoted if a shell would read it differently, and the file that receives the command's output.
pub fn write_words<O: Outputs>(
    words: &[String],
    redirect: Option<&str>,
    out: &mut O,
) -> Result<(), DeviceFault>
    requires { IsOpen (O.seen out.old) }
    ensures { Writes (O.seen out.old) (puts (value_text (words_text (texts words.now) (option_map (λ s. s.now) redirect.entry))))
        (ending_of_result result) (O.seen out.new) }
{
    match words {
        [] => write_lone_redirect(redirect, out),
        [first, later @ ..] => write_words_from(first.as_str(), later, redirect, out),
    }
}
