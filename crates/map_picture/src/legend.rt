//! The legend of shades.

ghost use Rattle.std.specs.Prelude.{◌≡◌, ◌<◌, ◌≤◌, ◌-◌, ◌^◌, ◌++◌, OnOk};
ghost use Rattle.std.specs.List.{flat_map, range_with_len};
ghost use Rattle.map_picture.specs.Bytes.{least_of as the_least_of, legend_text, swatch_shown, swatch_text};
ghost use Rattle.map_picture.specs.Picture.{heat_of as the_heat_of};

use crate::frame::Sizes;
use crate::words::{push_count, push_text, push_written};
use std::alloc::AllocError;

/// Which of eight shades the count has, if this is the greatest one.
pub fn heat_of(count: u64, most: u64) -> u64
    requires count { count < 2 ^ 20 }
    requires most { most < 2 ^ 16 }
    ensures { result ≡ the_heat_of count most }
{
    8 * count / (most + 1)
}

/// The least count that may have the shade.
fn least_of(most: u64, shade: u64) -> u64
    requires most { most < 2 ^ 16 }
    requires shade { shade < 8 }
    ensures least { result ≡ the_least_of most shade }
    ensures small { result < 2 ^ 20 }
{
    (shade * (most + 1) + 7) / 8
}

/// A rectangle of the shade, and the least count that has it.
#[tactic(auto, unfolding(crate::specs::Bytes::swatch_shown))]
fn push_shown(out: &mut Vec<u8>, sizes: Sizes, shade: u64, count: u64) -> Result<(), AllocError>
    requires wide { sizes.wide < 2 ^ 33 }
    requires shade { shade < 8 }
    ensures { OnOk result (out.new.items ≡ out.old.items ++ swatch_shown sizes shade count) }
{
    let x = sizes.wide / 2 + sizes.wide / 20 * shade;
    push_count(out, "<rect class=\"h", shade)?;
    push_count(out, "\" x=\"", x)?;
    push_count(out, "\" y=\"", sizes.strip)?;
    push_count(out, "\" width=\"", sizes.wide / 20)?;
    push_count(out, "\" height=\"", sizes.margin)?;
    push_written(out, "\"/>", x, sizes.strip, "\" dy=\"-.2em\">")?;
    push_count(out, "", count)?;
    push_text(out, "</text>")
}

/// .. if some count has it.
fn push_swatch(out: &mut Vec<u8>, sizes: Sizes, most: u64, shade: u64) -> Result<(), AllocError>
    requires wide { sizes.wide < 2 ^ 33 }
    requires most { most < 2 ^ 16 }
    requires shade { shade < 8 }
    ensures { OnOk result (out.new.items ≡ out.old.items ++ swatch_text sizes most shade) }
{
    let least = least_of(most, shade);
    if heat_of(least, most) == shade {
        push_shown(out, sizes, shade, least)
    } else {
        Ok(())
    }
}

/// The first so many shades.
fn push_swatches(out: &mut Vec<u8>, sizes: Sizes, most: u64, shades: u64) -> Result<(), AllocError>
    requires wide { sizes.wide < 2 ^ 33 }
    requires most { most < 2 ^ 16 }
    requires shades { shades ≤ 8 }
    ensures { OnOk result (out.new.items ≡ out.old.items ++ flat_map (swatch_text sizes most) (range_with_len 0 shades)) }
{
    for shade in 0..shades {
        push_swatch(out, sizes, most, shade)?;
    }
    Ok(())
}

/// Which counts each shade stands for.
#[tactic(auto, unfolding(crate::specs::Bytes::legend_text))]
pub fn push_legend(out: &mut Vec<u8>, sizes: Sizes, most: u64) -> Result<(), AllocError>
    requires wide { sizes.wide < 2 ^ 33 }
    requires most { most < 2 ^ 16 }
    ensures { OnOk result (out.new.items ≡ out.old.items ++ legend_text sizes most) }
{
    push_text(out, "<g class=\"n\">")?;
    push_swatches(out, sizes, most, 8)?;
    push_text(out, "</g>\n")
}
