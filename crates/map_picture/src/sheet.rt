//! The first elements of a picture.

ghost use Rattle.std.specs.Prelude.{◌≡◌, ◌≤◌, ◌<◌, ◌^◌, ◌++◌, ◌∷◌, [], OnOk, codes, replicate};
ghost use Rattle.sight_names.specs.Map.{Map};
ghost use Rattle.map_picture.specs.declared.frame.Frame.{Frame};
ghost use Rattle.map_picture.specs.Bytes.{count_text, dark_text, head_text, left_out_text, left_out_words, letters_text, light_text, paper_text, pixels_text, scale_text, shades_text, size_text, spelled_picture, style_text, subject_text, tenths_text, title_text, told_text, units_text};
ghost use Rattle.map_picture.specs.Frame.{width_of};
ghost use Rattle.map_picture.specs.Picture.{Foot, sheet_of};
ghost use Rattle.map_picture.specs.Scale.{bar_for as the_bar_for};

use crate::frame::{Frame, Sizes, sizes_of, width};
use crate::named::Named;
use crate::scale::{Bar, bar_for};
use crate::words::{push_count, push_escaped, push_number, push_text, push_written};
use std::alloc::AllocError;

#[tactic(auto, unfolding(crate::specs::Bytes::size_text))]
fn push_size(out: &mut Vec<u8>, sizes: Sizes) -> Result<(), AllocError>
    ensures { OnOk result (out.new.items ≡ out.old.items ++ size_text sizes) }
{
    push_count(out, " ", sizes.wide)?;
    push_count(out, " ", sizes.high)?;
    push_count(out, "\" width=\"", sizes.wide_pixels)?;
    push_count(out, "\" height=\"", sizes.high_pixels)
}

#[tactic(auto, unfolding(crate::specs::Bytes::head_text))]
fn push_head(out: &mut Vec<u8>, sizes: Sizes) -> Result<(), AllocError>
    ensures { OnOk result (out.new.items ≡ out.old.items ++ head_text sizes) }
{
    push_count(
        out,
        "<svg xmlns=\"http://www.w3.org/2000/svg\" viewBox=\"-",
        sizes.margin,
    )?;
    push_count(out, " -", sizes.margin)?;
    push_size(out, sizes)?;
    push_text(out, "\">\n")
}

/// What a picture tells of its map.
#[derive(Clone, Copy)]
pub enum Subject {
    /// The plan alone.
    Plan,
    /// What refuses the map; so many clashes are left out.
    Faults(u64),
    /// The row of a sector in a table.
    Row(u16),
    /// What two sectors see of each other.
    Pair { a: u16, b: u16 },
    /// How much each sector sees.
    Heat,
}

fn push_pair(out: &mut Vec<u8>, a: u16, b: u16) -> Result<(), AllocError>
    ensures { OnOk result (out.new.items ≡ out.old.items ++ (count_text (codes " pair ") a ++ count_text (codes " ") b)) }
{
    push_count(out, " pair ", a as u64)?;
    push_count(out, " ", b as u64)
}

#[tactic(auto, unfolding(crate::specs::Bytes::left_out_text))]
fn push_some_left(out: &mut Vec<u8>, left_out: u64) -> Result<(), AllocError>
    ensures { OnOk result (out.new.items ≡ out.old.items ++ left_out_text left_out) }
{
    push_count(out, ", ", left_out)?;
    push_text(out, " clashes left out")
}

/// How many clashes are left out, if any.
fn push_left_out(out: &mut Vec<u8>, left_out: u64) -> Result<(), AllocError>
    ensures { OnOk result (out.new.items ≡ out.old.items ++ left_out_words left_out) }
{
    if left_out == 0 {
        Ok(())
    } else {
        push_some_left(out, left_out)
    }
}

fn push_about_faults(out: &mut Vec<u8>, left_out: u64) -> Result<(), AllocError>
    ensures { OnOk result (out.new.items ≡ out.old.items ++ (codes " faults" ++ left_out_words left_out)) }
{
    push_text(out, " faults")?;
    push_left_out(out, left_out)
}

fn push_subject(out: &mut Vec<u8>, about: Subject) -> Result<(), AllocError>
    ensures { OnOk result (out.new.items ≡ out.old.items ++ subject_text about) }
{
    match about {
        Subject::Plan => Ok(()),
        Subject::Faults(left_out) => push_about_faults(out, left_out),
        Subject::Row(a) => push_count(out, " row ", a as u64),
        Subject::Pair { a, b } => push_pair(out, a, b),
        Subject::Heat => push_text(out, " heat"),
    }
}

#[tactic(auto, unfolding(crate::specs::Bytes::title_text))]
fn push_title(out: &mut Vec<u8>, name: &str, about: Subject) -> Result<(), AllocError>
    ensures { OnOk result (out.new.items ≡ out.old.items ++ title_text name.now about) }
{
    push_text(out, "<title>")?;
    push_escaped(out, name.as_bytes())?;
    push_subject(out, about)?;
    push_text(out, "</title>\n")
}

fn push_light(out: &mut Vec<u8>) -> Result<(), AllocError>
    ensures { OnOk result (out.new.items ≡ out.old.items ++ light_text) }
{
    push_text(
        out,
        "<style>path,circle{fill:none;stroke-linecap:round}.w,.u,.o{stroke:#000}.p{stroke:#9a9a9a}.k,.r{stroke:#d62728}.i{stroke:#fff}.a{fill:#1f77b4}.b{fill:#ff7f0e}.c{fill:#9ecae1}.s{fill:#e4e4e4}.f{fill:#a1d99b;stroke:#41ab5d}.k,.f,.u,.n{pointer-events:none}",
    )
}

#[tactic(auto, unfolding(crate::specs::Bytes::units_text))]
fn push_units(out: &mut Vec<u8>, stroke: u64) -> Result<(), AllocError>
    requires { stroke < 2 ^ 22 }
    ensures { OnOk result (out.new.items ≡ out.old.items ++ units_text stroke) }
{
    push_count(out, "path,circle{stroke-width:", stroke)?;
    push_count(out, "}.w,.o{stroke-width:", 2 * stroke)?;
    push_count(out, "}.r,.u{stroke-width:", 3 * stroke)?;
    push_count(out, "}.k{stroke-width:", 4 * stroke)?;
    push_count(out, "}.i{stroke-width:", 6 * stroke)
}

fn push_pixels(out: &mut Vec<u8>) -> Result<(), AllocError>
    ensures { OnOk result (out.new.items ≡ out.old.items ++ pixels_text) }
{
    push_text(
        out,
        "}@supports(vector-effect:non-scaling-stroke){path,circle{vector-effect:non-scaling-stroke;stroke-width:1}.f{stroke-width:.5}.w,.o{stroke-width:2}.r,.u{stroke-width:3}.k{stroke-width:4}.i{stroke-width:6}}",
    )
}

fn push_shades(out: &mut Vec<u8>) -> Result<(), AllocError>
    ensures { OnOk result (out.new.items ≡ out.old.items ++ shades_text) }
{
    push_text(
        out,
        ".h0{fill:#ffffcc}.h1{fill:#ffeda0}.h2{fill:#fed976}.h3{fill:#feb24c}.h4{fill:#fd8d3c}.h5{fill:#fc4e2a}.h6{fill:#e31a1c}.h7{fill:#b10026}",
    )
}

#[tactic(auto, unfolding(crate::specs::Bytes::letters_text))]
fn push_letters(out: &mut Vec<u8>, margin: u64) -> Result<(), AllocError>
    ensures { OnOk result (out.new.items ≡ out.old.items ++ letters_text margin) }
{
    push_count(out, "text{font:bold ", margin)?;
    push_count(
        out,
        "px sans-serif;fill:#000;stroke:#fff;paint-order:stroke;stroke-width:",
        margin / 4,
    )?;
    push_text(out, "}")
}

fn push_dark(out: &mut Vec<u8>) -> Result<(), AllocError>
    ensures { OnOk result (out.new.items ≡ out.old.items ++ dark_text) }
{
    push_text(
        out,
        "@media(prefers-color-scheme:dark){.paper{fill:#181818}.w,.u,.o{stroke:#f2f2f2}.p{stroke:#8a8a8a}.k,.r{stroke:#ff6b6b}.a{fill:#4da3e8}.b{fill:#ff9a3c}.c{fill:#2c4f6e}.s{fill:#383838}.f{fill:#24592b;stroke:#74c476}.i{stroke:#181818}text{fill:#f2f2f2;stroke:#181818}.h0{fill:#2a1636}.h1{fill:#451a4a}.h2{fill:#65205a}.h3{fill:#872a5c}.h4{fill:#aa3655}.h5{fill:#cc4a49}.h6{fill:#e76a3c}.h7{fill:#f99a3e}}",
    )
}

#[tactic(auto, unfolding(crate::specs::Bytes::style_text))]
fn push_style(out: &mut Vec<u8>, sizes: Sizes) -> Result<(), AllocError>
    requires { sizes.stroke < 2 ^ 22 }
    ensures { OnOk result (out.new.items ≡ out.old.items ++ style_text sizes) }
{
    push_light(out)?;
    push_units(out, sizes.stroke)?;
    push_pixels(out)?;
    push_shades(out)?;
    push_letters(out, sizes.margin)?;
    push_dark(out)?;
    push_text(out, "</style>\n")
}

#[tactic(auto, unfolding(crate::specs::Bytes::paper_text))]
fn push_paper(out: &mut Vec<u8>, sizes: Sizes) -> Result<(), AllocError>
    ensures { OnOk result (out.new.items ≡ out.old.items ++ paper_text sizes) }
{
    push_count(
        out,
        "<rect class=\"paper\" fill=\"#fff\" x=\"-",
        sizes.margin,
    )?;
    push_count(out, "\" y=\"-", sizes.margin)?;
    push_count(out, "\" width=\"", sizes.wide)?;
    push_count(out, "\" height=\"", sizes.high)?;
    push_text(out, "\"/>\n")
}

fn push_zeros(out: &mut Vec<u8>, count: u8) -> Result<(), AllocError>
    ensures { OnOk result (out.new.items ≡ out.old.items ++ replicate count 48) }
{
    let mut left = count;
    while left > 0 {
        push_text(out, "0")?;
        left -= 1;
    }
    Ok(())
}

/// So many of the last of some decimal places.
#[tactic(auto, unfolding(crate::specs::Bytes::tenths_text))]
fn push_tenths(out: &mut Vec<u8>, count: u64, behind: u8) -> Result<(), AllocError>
    ensures { OnOk result (out.new.items ≡ out.old.items ++ tenths_text count behind) }
{
    push_text(out, "0.")?;
    push_zeros(out, behind.saturating_sub(1))?;
    push_number(out, count)
}

/// How long a bar is in map units.
fn push_told(out: &mut Vec<u8>, bar: Bar) -> Result<(), AllocError>
    ensures { OnOk result (out.new.items ≡ out.old.items ++ told_text bar) }
{
    if bar.behind == 0 || bar.steps == 0 {
        push_number(out, bar.steps)
    } else {
        push_tenths(out, bar.steps, bar.behind)
    }
}

/// A bar from below the map's left edge, and behind it how long it is in map units.
#[tactic(auto, unfolding(crate::specs::Bytes::scale_text))]
fn push_scale(out: &mut Vec<u8>, sizes: Sizes, bar: Bar) -> Result<(), AllocError>
    ensures { OnOk result (out.new.items ≡ out.old.items ++ scale_text sizes bar) }
{
    push_count(out, "<path class=\"u\" d=\"M0 ", sizes.strip)?;
    push_count(out, "H", bar.length)?;
    push_written(
        out,
        "\"/>",
        bar.length,
        sizes.strip,
        "\" dx=\".6em\" dy=\".36em\" class=\"n\">",
    )?;
    push_told(out, bar)?;
    push_text(out, "</text>\n")
}

/// The title of a picture of a map with this name.
fn push_named_title(out: &mut Vec<u8>, name: &Named<'_>, about: Subject) -> Result<(), AllocError>
    ensures { OnOk result (out.new.items ≡ out.old.items ++ title_text name.now.text about) }
{
    push_title(out, name.text, about)
}

/// The scale of a picture with this frame.
fn push_named_scale(
    out: &mut Vec<u8>,
    frame: Frame,
    name: &Named<'_>,
    sizes: Sizes,
) -> Result<(), AllocError>
    ensures { OnOk result (out.new.items ≡ out.old.items ++ scale_text sizes (the_bar_for (width_of frame) name.now.places)) }
{
    push_scale(out, sizes, bar_for(width(frame), name.places))
}

/// What a picture with this frame begins with.
pub fn push_sheet(
    out: &mut Vec<u8>,
    frame: Frame,
    name: &Named<'_>,
    about: Subject,
) -> Result<(), AllocError>
    ensures { (m : Map) → OnOk result (out.new.items ≡ out.old.items ++ spelled_picture frame m (sheet_of name.now about)) }
{
    let sizes = sizes_of(frame);
    push_head(out, sizes)?;
    push_named_title(out, name, about)?;
    push_style(out, sizes)?;
    push_paper(out, sizes)?;
    push_named_scale(out, frame, name, sizes)
}

/// The end of a picture.
pub fn push_foot(out: &mut Vec<u8>) -> Result<(), AllocError>
    ensures { (f : Frame) (m : Map) → OnOk result (out.new.items ≡ out.old.items ++ spelled_picture f m (Foot ∷ [])) }
{
    push_text(out, "</svg>\n")
}
