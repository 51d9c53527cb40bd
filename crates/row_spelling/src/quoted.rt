//! Strings of JSON.

ghost use Rattle.std.specs.Prelude.{◌≡◌, ◌++◌, ◌∷◌, ◌<◌, [], OnOk, codes, string_bytes};
ghost use Rattle.std.specs.List.{flat_map};
ghost use Rattle.row_spelling.specs.Quoted.{code_of, escaped_code, hex_digit, quoted};

use std::alloc::AllocError;

fn hex_digit(n: u8) -> char
    requires { n < 16 }
    ensures digit { result ≡ hex_digit n }
    ensures ascii { result < 128 }
{
    if n < 10 {
        char::from(b'0' + n)
    } else {
        char::from(b'a' + (n - 10))
    }
}

/// Adds one character of ASCII.
fn push_ascii(line: &mut String, c: char) -> Result<(), AllocError>
    requires { c < 128 }
    ensures { OnOk result (string_bytes line.new ≡ string_bytes line.old ++ c ∷ []) }
{
    line.push(c)
}

/// Adds the code of a byte.
fn push_code(line: &mut String, c: u8) -> Result<(), AllocError>
    ensures { OnOk result (string_bytes line.new ≡ string_bytes line.old ++ code_of c) }
{
    line.push_str("\\u00")?;
    push_ascii(line, hex_digit(c / 16))?;
    push_ascii(line, hex_digit(c % 16))
}

/// Adds what a byte is in a string.
fn push_escaped(line: &mut String, c: u8) -> Result<(), AllocError>
    ensures { OnOk result (string_bytes line.new ≡ string_bytes line.old ++ escaped_code c) }
{
    if c == b'"' {
        return line.push_str("\\\"");
    }
    if c == b'\\' {
        return line.push_str("\\\\");
    }
    if c >= 32 && c <= 126 {
        return push_ascii(line, char::from(c));
    }
    push_code(line, c)
}

/// Adds what these bytes are in a string.
fn push_each(line: &mut String, text: &[u8]) -> Result<(), AllocError>
    ensures { OnOk result (string_bytes line.new ≡ string_bytes line.old ++ flat_map escaped_code text.now) }
{
    for c in text {
        push_escaped(line, *c)?;
    }
    Ok(())
}

/// Adds a text as a string of JSON, in which each byte that isn't a printing one of ASCII stands as its code.
#[tactic(auto, unfolding(crate::specs::Quoted::quoted))]
pub fn push_quoted(line: &mut String, text: &str) -> Result<(), AllocError>
    ensures { OnOk result (string_bytes line.new ≡ string_bytes line.old ++ quoted text.now) }
{
    line.push_str("\"")?;
    push_each(line, text.as_bytes())?;
    line.push_str("\"")
}
