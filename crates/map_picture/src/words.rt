//! Texts, numbers and points put behind what a buffer has. After a failed call the buffer has some front of the text.

ghost use Rattle.std.specs.Prelude.{◌≡◌, ◌++◌, OnOk};
ghost use Rattle.std.specs.Fmt.{decimal};
ghost use Rattle.map_picture.specs.Bytes.{count_text, ends_text, escaped_text, escaped_char, path_text, point_text, step_text, written_text};

use crate::frame::{Frame, across, down};
use itoa::Buffer;
use sight_names::Pt;
use std::alloc::AllocError;

pub fn push_text(out: &mut Vec<u8>, text: &str) -> Result<(), AllocError>
    ensures { OnOk result (out.new.items ≡ out.old.items ++ text.now) }
{
    out.extend_from_slice(text.as_bytes())
}

pub fn push_number(out: &mut Vec<u8>, n: u64) -> Result<(), AllocError>
    ensures { OnOk result (out.new.items ≡ out.old.items ++ decimal n) }
{
    let mut buffer = Buffer::new();
    out.extend_from_slice(buffer.format(n).as_bytes())
}

/// A text, and a number behind it.
#[tactic(auto, unfolding(crate::specs::Bytes::count_text))]
pub fn push_count(out: &mut Vec<u8>, word: &str, n: u64) -> Result<(), AllocError>
    ensures { OnOk result (out.new.items ≡ out.old.items ++ count_text word.now n) }
{
    push_text(out, word)?;
    push_number(out, n)
}

#[tactic(auto, unfolding(crate::specs::Bytes::point_text))]
fn push_point(out: &mut Vec<u8>, frame: Frame, p: Pt) -> Result<(), AllocError>
    ensures { OnOk result (out.new.items ≡ out.old.items ++ point_text frame p) }
{
    push_number(out, across(frame, p))?;
    push_count(out, " ", down(frame, p))
}

/// A word, and the point's place behind it.
pub fn push_step(out: &mut Vec<u8>, frame: Frame, word: &str, p: Pt) -> Result<(), AllocError>
    ensures { OnOk result (out.new.items ≡ out.old.items ++ step_text frame word.now p) }
{
    push_text(out, word)?;
    push_point(out, frame, p)
}

/// A straight line.
#[tactic(auto, unfolding(crate::specs::Bytes::ends_text))]
pub fn push_ends(out: &mut Vec<u8>, frame: Frame, first: Pt, second: Pt) -> Result<(), AllocError>
    ensures { OnOk result (out.new.items ≡ out.old.items ++ ends_text frame first second) }
{
    push_step(out, frame, "M", first)?;
    push_step(out, frame, "L", second)
}

fn push_char(out: &mut Vec<u8>, c: u8) -> Result<(), AllocError>
    ensures { OnOk result (out.new.items ≡ out.old.items ++ escaped_char c) }
{
    if c == 38 {
        push_text(out, "&amp;")
    } else if c == 60 {
        push_text(out, "&lt;")
    } else {
        out.extend_from_slice(&[c])
    }
}

/// A text as it stands in SVG.
pub fn push_escaped(out: &mut Vec<u8>, text: &[u8]) -> Result<(), AllocError>
    ensures { OnOk result (out.new.items ≡ out.old.items ++ escaped_text text.now) }
{
    for c in text {
        push_char(out, *c)?;
    }
    Ok(())
}

/// A word, and the beginning of a text at a place of the picture.
#[tactic(auto, unfolding(crate::specs::Bytes::written_text))]
pub fn push_written(
    out: &mut Vec<u8>,
    word: &str,
    x: u64,
    y: u64,
    moved: &str,
) -> Result<(), AllocError>
    ensures { OnOk result (out.new.items ≡ out.old.items ++ written_text word.now x y moved.now) }
{
    push_text(out, word)?;
    push_count(out, "<text x=\"", x)?;
    push_count(out, "\" y=\"", y)?;
    push_text(out, moved)
}

/// A path of this class and id as far as its points.
#[tactic(auto, unfolding(crate::specs::Bytes::path_text))]
pub fn push_named_path(out: &mut Vec<u8>, class: &str, id: &str) -> Result<(), AllocError>
    ensures { OnOk result (out.new.items ≡ out.old.items ++ path_text class.now id.now) }
{
    push_text(out, "<path class=\"")?;
    push_text(out, class)?;
    push_text(out, "\" id=\"")?;
    push_text(out, id)?;
    push_text(out, "\" d=\"")
}

/// A path of this class as far as its points; its id is a word and a number.
#[tactic(auto, unfolding(crate::specs::Bytes::path_text))]
pub fn push_path(out: &mut Vec<u8>, class: &str, word: &str, n: u64) -> Result<(), AllocError>
    ensures { OnOk result (out.new.items ≡ out.old.items ++ path_text class.now (count_text word.now n)) }
{
    push_text(out, "<path class=\"")?;
    push_text(out, class)?;
    push_text(out, "\" id=\"")?;
    push_count(out, word, n)?;
    push_text(out, "\" d=\"")
}
