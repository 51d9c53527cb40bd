//! The tokens of a text, one after the other.

ghost use Rattle.std.specs.Prelude.{◌<◌, ◌≤◌, IfErr, IfOk, IfSome, length, option_map};
ghost use Rattle.udmf_text.specs.TextTokens.Between.{GivesTokensExactly};
ghost use Rattle.udmf_text.specs.TextTokens.Text.{first_token_of, placed_of};

use crate::text_tokens::between::behind_gap;
use crate::text_tokens::token::{Taken, take_token};

/// A token, and how many bytes of the text there are from its first one on.
#[derive(Clone, Copy)]
pub struct Placed<'a> {
    pub left: usize,
    pub token: Taken<'a>,
}

/// The first token of a text, None where there is none; or how many bytes there are from the first fault on.
pub fn next_token(text: &[u8]) -> Result<Option<Placed<'_>>, usize>
    ensures found { GivesTokensExactly (option_map placed_of) (λ left. left) result (first_token_of text.now) }
    ensures shorter { IfOk result (λ found. IfSome found (λ p. length p.token.rest.now < length text.now)) }
    ensures left { IfOk result (λ found. IfSome found (λ p. p.left ≤ length text.now)) }
    ensures fault { IfErr result (λ left. left ≤ length text.now) }
{
    let here = match behind_gap(text) {
        Ok(here) => here,
        Err(opened) => return Err(opened.len()),
    };
    if here.is_empty() {
        return Ok(None);
    }
    match take_token(here) {
        Some(token) => Ok(Some(Placed {
            left: here.len(),
            token,
        })),
        None => Err(here.len()),
    }
}
