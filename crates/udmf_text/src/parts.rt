//! The parts of a text, one after the other: names of items, values, and the braces of blocks.

ghost use Rattle.std.specs.Prelude.{◌≡◌, ◌<◌, ◌≤◌, IfOk, IfSome, length, option_map};
ghost use Rattle.std.specs.List.{list_all};
ghost use Rattle.udmf_text.specs.TextTokens.Between.{GivesTokensExactly};
ghost use Rattle.udmf_text.specs.TextTokens.Text.{placed_of};
ghost use Rattle.udmf_text.specs.Parts.{is_kind as is_kind_lem, is_of_name, name_in_token as name_of_lem, token_at, behind_mark as behind_mark_lem, value_at, item_at, behind_name as behind_name_lem, inside_at, part_at, stage_bytes, found_bytes};

use crate::text_tokens::{Kind, Placed, next_token};

/// A name or a key, and the value that it is given: the bytes of a word, or those between the quotes of a string.
#[derive(Clone, Copy)]
pub struct Given<'a> {
    pub key: &'a [u8],
    pub quoted: bool,
    pub value: &'a [u8],
}

/// A part of a text.
#[derive(Clone, Copy)]
pub enum Part<'a> {
    /// The name of an item.
    Item(&'a [u8]),
    /// The brace that opens the block of the item of this name.
    Opens(&'a [u8]),
    /// A value that the name of an item is given, or a key in a block.
    Gives(Given<'a>),
    /// The brace that closes the block.
    Closes,
}

/// Where one stands behind a part.
#[derive(Clone, Copy)]
pub enum Stage<'a> {
    /// Before an item, or at the end.
    Outside,
    /// Behind the name of an item.
    Behind(&'a [u8]),
    /// Behind a value, before an item or the end.
    Valued,
    /// In a block, before a key or the end of the block.
    Inside,
    /// Behind a value in a block.
    ValuedInside,
}

/// A part, how many bytes of the text there are from its token on, and what is left behind this, with where one stands there.
#[derive(Clone, Copy)]
pub struct Found<'a> {
    pub left: usize,
    pub part: Part<'a>,
    pub stage: Stage<'a>,
    pub rest: &'a [u8],
}

fn is_kind(a: Kind, b: Kind) -> bool
    ensures { result ≡ is_kind_lem a b }
{
    a == b
}

/// Whether the bytes are letters, digits and underscores.
fn is_name(word: &[u8]) -> bool
    ensures { result ≡ list_all is_of_name word.now }
{
    word.iter().all(|c| c.is_ascii_alphanumeric() || *c == b'_')
}

/// The name that a token is.
fn name_of(t: Placed<'_>) -> Result<&[u8], usize>
    ensures { GivesTokensExactly (λ name. name.now) (λ left. left) result (name_of_lem (placed_of t.entry)) }
{
    if is_kind(t.token.kind, Kind::Word) && is_name(t.token.bytes) {
        Ok(t.token.bytes)
    } else {
        Err(t.left)
    }
}

/// The first token of a text, which mustn't end before it.
#[tactic(auto, unfolding(crate::specs::Parts::token_at))]
fn some_token(text: &[u8]) -> Result<Placed<'_>, usize>
    ensures token { GivesTokensExactly placed_of (λ left. left) result (token_at text.now) }
    ensures shorter { IfOk result (λ t. length t.token.rest.now < length text.now) }
{
    match next_token(text)? {
        Some(t) => Ok(t),
        None => Err(0),
    }
}

/// What is left behind a token of one kind.
#[tactic(auto, unfolding(crate::specs::Parts::behind_mark))]
fn behind_mark(kind: Kind, text: &[u8]) -> Result<&[u8], usize>
    ensures left { GivesTokensExactly (λ rest. rest.now) (λ left. left) result (behind_mark_lem kind text.now) }
    ensures shorter { IfOk result (λ rest. length rest.now < length text.now) }
{
    let t = some_token(text)?;
    if is_kind(t.token.kind, kind) {
        Ok(t.token.rest)
    } else {
        Err(t.left)
    }
}

/// Behind the equals sign a value.
#[tactic(auto, unfolding(crate::specs::Parts::value_at))]
fn value<'a>(key: &'a [u8], stage: Stage<'a>, text: &'a [u8]) -> Result<Found<'a>, usize>
    ensures part { GivesTokensExactly found_bytes (λ left. left) result (value_at key.now (stage_bytes stage.entry) text.now) }
    ensures shorter { IfOk result (λ f. length f.rest.now < length text.now) }
{
    let t = some_token(text)?;
    let quoted = is_kind(t.token.kind, Kind::Quoted);
    if !is_kind(t.token.kind, Kind::Word) && !quoted {
        return Err(t.left);
    }
    Ok(Found {
        left: t.left,
        part: Part::Gives(Given {
            key,
            quoted,
            value: t.token.bytes,
        }),
        stage,
        rest: t.token.rest,
    })
}

/// Outside of blocks the name of an item, None at the end.
#[tactic(auto, unfolding(crate::specs::Parts::item_at))]
fn item(text: &[u8]) -> Result<Option<Found<'_>>, usize>
    ensures part { GivesTokensExactly (option_map found_bytes) (λ left. left) result (item_at text.now) }
    ensures shorter { IfOk result (λ found. IfSome found (λ f. length f.rest.now < length text.now)) }
{
    let Some(t) = next_token(text)? else {
        return Ok(None);
    };
    let name = name_of(t)?;
    Ok(Some(Found {
        left: t.left,
        part: Part::Item(name),
        stage: Stage::Behind(name),
        rest: t.token.rest,
    }))
}

/// Behind the name of an item the brace that opens its block, or its value.
#[tactic(auto, unfolding(crate::specs::Parts::behind_name))]
fn behind_name<'a>(name: &'a [u8], text: &'a [u8]) -> Result<Found<'a>, usize>
    ensures part { GivesTokensExactly found_bytes (λ left. left) result (behind_name_lem name.now text.now) }
    ensures shorter { IfOk result (λ f. length f.rest.now < length text.now) }
{
    let t = some_token(text)?;
    if is_kind(t.token.kind, Kind::Open) {
        return Ok(Found {
            left: t.left,
            part: Part::Opens(name),
            stage: Stage::Inside,
            rest: t.token.rest,
        });
    }
    if !is_kind(t.token.kind, Kind::Is) {
        return Err(t.left);
    }
    value(name, Stage::Valued, t.token.rest)
}

/// In a block its end, or a key with its value.
#[tactic(auto, unfolding(crate::specs::Parts::inside_at))]
fn inside(text: &[u8]) -> Result<Found<'_>, usize>
    ensures part { GivesTokensExactly found_bytes (λ left. left) result (inside_at text.now) }
    ensures shorter { IfOk result (λ f. length f.rest.now < length text.now) }
{
    let t = some_token(text)?;
    if is_kind(t.token.kind, Kind::Close) {
        return Ok(Found {
            left: t.left,
            part: Part::Closes,
            stage: Stage::Outside,
            rest: t.token.rest,
        });
    }
    let key = name_of(t)?;
    value(
        key,
        Stage::ValuedInside,
        behind_mark(Kind::Is, t.token.rest)?,
    )
}

/// The next part of a text for one who stands there, None where the text ends; or how many bytes there are from the first
/// fault on, 0 where an item isn't whole.
pub fn next_part<'a>(stage: Stage<'a>, text: &'a [u8]) -> Result<Option<Found<'a>>, usize>
    ensures part { GivesTokensExactly (option_map found_bytes) (λ left. left) result (part_at (stage_bytes stage.entry) text.now) }
    ensures shorter { IfOk result (λ found. IfSome found (λ f. length f.rest.now < length text.now)) }
{
    match stage {
        Stage::Outside => item(text),
        Stage::Behind(name) => Ok(Some(behind_name(name, text)?)),
        Stage::Valued => item(behind_mark(Kind::End, text)?),
        Stage::Inside => Ok(Some(inside(text)?)),
        Stage::ValuedInside => Ok(Some(inside(behind_mark(Kind::End, text)?)?)),
    }
}
