//! One token.

ghost use Rattle.std.specs.Prelude.{◌≡◌, ◌≤◌, ◌<◌, IfSome, length, option_map, false};
ghost use Rattle.udmf_text.specs.TextTokens.Tokens.{ends_word as ends_word_lem, word_len as word_len_lem, behind_quote as behind_quote_lem, is_apart as is_apart_lem, token_of, quoted_of, word_token_of, mark_of, token_parts};

use crate::text_tokens::between::begins_with;

/// What a token is.
#[derive(Clone, Copy, PartialEq, Eq)]
pub enum Kind {
    Open,
    Close,
    Is,
    End,
    Word,
    Quoted,
}

/// A token: its bytes, those between the quotes where it is a string, and what is left behind it.
#[derive(Clone, Copy)]
pub struct Taken<'a> {
    pub kind: Kind,
    pub bytes: &'a [u8],
    pub rest: &'a [u8],
}

/// Whether a word ends before this byte, behind which these stand.
fn ends_word(byte: u8, behind: &[u8]) -> bool
    ensures { result ≡ ends_word_lem byte behind.now }
{
    if byte <= b' ' || is_apart(byte) {
        return true;
    }
    byte == b'/' && (begins_with(behind, b'/') || begins_with(behind, b'*'))
}

/// Whether the byte is in no word.
fn is_apart(byte: u8) -> bool
    ensures { result ≡ is_apart_lem byte }
{
    byte == b'{'
        || byte == b'}'
        || byte == b'='
        || byte == b';'
        || byte == b'"'
        || byte == b'('
        || byte == b')'
        || byte == b'\''
}

/// How many bytes the word at the front has.
fn word_len(text: &[u8]) -> usize
    ensures len { result ≡ word_len_lem text.now }
    ensures within { result ≤ length text.now }
{
    let mut len = 0;
    while len < text.len() {
        if ends_word(text[len], &text[len + 1..]) {
            return len;
        }
        len += 1;
    }
    len
}

/// What is left behind the quote that ends a string; None where none does.
fn behind_quote(text: &[u8]) -> Option<&[u8]>
    ensures left { option_map (λ rest. rest.now) result ≡ behind_quote_lem false text.now }
    ensures within { IfSome result (λ rest. length rest.now < length text.now) }
{
    let mut escaped = false;
    let mut rest = text;
    while let [byte, more @ ..] = rest {
        if !escaped && *byte == b'"' {
            return Some(more);
        }
        escaped = !escaped && *byte == b'\\';
        rest = more;
    }
    None
}

/// The token at the front of a text that begins with one, and what is left behind it; None where none begins there.
pub fn take_token(text: &[u8]) -> Option<Taken<'_>>
    ensures token { option_map token_parts result ≡ token_of text.now }
    ensures shorter { IfSome result (λ t. length t.rest.now < length text.now) }
{
    let [byte, more @ ..] = text else {
        return None;
    };
    if *byte == b'{' {
        return Some(mark(Kind::Open, text, more));
    }
    if *byte == b'}' {
        return Some(mark(Kind::Close, text, more));
    }
    if *byte == b'=' {
        return Some(mark(Kind::Is, text, more));
    }
    if *byte == b';' {
        return Some(mark(Kind::End, text, more));
    }
    if *byte == b'"' {
        return quoted(more);
    }
    word(text)
}

/// A token of one byte.
fn mark<'a>(kind: Kind, text: &'a [u8], more: &'a [u8]) -> Taken<'a>
    ensures { token_parts result ≡ mark_of kind more.now }
{
    let (bytes, _) = text.split_at(0);
    Taken {
        kind,
        bytes,
        rest: more,
    }
}

/// The string behind whose opening quote these bytes stand.
fn quoted(more: &[u8]) -> Option<Taken<'_>>
    ensures token { option_map token_parts result ≡ quoted_of more.now }
    ensures shorter { IfSome result (λ t. length t.rest.now < length more.now) }
{
    let rest = behind_quote(more)?;
    let (bytes, _) = more.split_at(more.len() - rest.len() - 1);
    Some(Taken {
        kind: Kind::Quoted,
        bytes,
        rest,
    })
}

/// The word at the front; None where none begins there.
fn word(text: &[u8]) -> Option<Taken<'_>>
    ensures token { option_map token_parts result ≡ word_token_of text.now }
    ensures shorter { IfSome result (λ t. length t.rest.now < length text.now) }
{
    let len = word_len(text);
    if len == 0 {
        return None;
    }
    let (bytes, rest) = text.split_at(len);
    Some(Taken {
        kind: Kind::Word,
        bytes,
        rest,
    })
}
