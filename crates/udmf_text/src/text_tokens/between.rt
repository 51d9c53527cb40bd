//! Blanks and comments.

ghost use Rattle.std.specs.Prelude.{◌≡◌, ◌≤◌, IfOk, IfErr, length};
ghost use Rattle.udmf_text.specs.TextTokens.Between.{step_of, is_gap_closed as is_closed_lem, begins_with_byte as begins_with_lem, left_behind, left_behind_gap, GivesTokensExactly};

/// Where one stands between tokens.
#[derive(Clone, Copy, PartialEq, Eq)]
pub enum Gap {
    Between,
    /// In a comment that a line feed ends.
    InLine,
    /// Before the star that opens a comment.
    Opening,
    /// In a comment that a star and a slash end.
    InBlock,
    /// Before the slash that closes it.
    Closing,
}

/// Whether these bytes begin with this one.
pub fn begins_with(bytes: &[u8], byte: u8) -> bool
    ensures { result ≡ begins_with_lem byte bytes.now }
{
    match bytes {
        [c, ..] => *c == byte,
        [] => false,
    }
}

/// Where one stands behind a byte, None where a token begins at it.
fn step(gap: Gap, byte: u8, behind: &[u8]) -> Option<Gap>
    ensures { result ≡ step_of gap byte behind.now }
{
    match gap {
        Gap::Between => between(byte, behind),
        Gap::InLine => Some(if byte == b'\n' {
            Gap::Between
        } else {
            Gap::InLine
        }),
        Gap::Opening => Some(Gap::InBlock),
        Gap::InBlock => {
            if byte == b'*' && begins_with(behind, b'/') {
                return Some(Gap::Closing);
            }
            Some(Gap::InBlock)
        }
        Gap::Closing => Some(Gap::Between),
    }
}

fn between(byte: u8, behind: &[u8]) -> Option<Gap>
    ensures { result ≡ step_of Gap.Between byte behind.now }
{
    if byte <= b' ' {
        return Some(Gap::Between);
    }
    if byte != b'/' {
        return None;
    }
    if begins_with(behind, b'/') {
        return Some(Gap::InLine);
    }
    if begins_with(behind, b'*') {
        return Some(Gap::Opening);
    }
    None
}

/// Whether a text may end there.
fn is_closed(gap: Gap) -> bool
    ensures { result ≡ is_closed_lem gap }
{
    match gap {
        Gap::Between | Gap::InLine => true,
        Gap::Opening | Gap::InBlock | Gap::Closing => false,
    }
}

/// What is left behind all blanks and comments at the front; or, where a comment isn't closed, the text from it on.
pub fn behind_gap(text: &[u8]) -> Result<&[u8], &[u8]>
    ensures left { GivesTokensExactly (λ rest. rest.now) (λ opened. opened.now) result (left_behind text.now) }
    ensures within { IfOk result (λ rest. length rest.now ≤ length text.now) }
    ensures opened_within { IfErr result (λ opened. length opened.now ≤ length text.now) }
{
    let mut gap = Gap::Between;
    let mut opened = text;
    let mut rest = text;
    while let [byte, more @ ..] = rest {
        let Some(next) = step(gap, *byte, more) else {
            return Ok(rest);
        };
        if next == Gap::Opening {
            opened = rest;
        }
        gap = next;
        rest = more;
    }
    if is_closed(gap) {
        return Ok(rest);
    }
    Err(opened)
}
