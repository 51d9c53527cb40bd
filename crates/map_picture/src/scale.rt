//! The scale of a picture: a bar, and how many map units it is long.

ghost use Rattle.std.specs.Prelude.{◌≡◌, ◌<◌, ◌≤◌, ◌^◌, nat_le};
ghost use Rattle.map_picture.specs.Scale.{bar_for as the_bar_for, cut_down as the_cut_down, grain_for as the_grain_for, step_for as the_step_for};

/// The scale of a picture: how long a bar is. Where it isn't whole map units long, it is less than ten of the last of its places.
#[derive(Clone, Copy)]
pub struct Bar {
    /// In the map's own unit.
    pub length: u64,
    /// In steps.
    pub steps: u64,
    /// A step is the last of so many decimal places of a map unit.
    pub behind: u8,
}

/// What so many steps are cut down to a multiple of.
fn grain_for(steps: u64) -> u64
    ensures grain { result ≡ the_grain_for steps }
    ensures some { 0 < result }
{
    if steps >= 1024 {
        1024
    } else if steps >= 128 {
        128
    } else if steps >= 16 {
        16
    } else {
        1
    }
}

/// So many steps, cut down to a number that one reads easily.
fn cut_down(steps: u64) -> u64
    ensures cut { result ≡ the_cut_down steps }
    ensures fewer { result ≤ steps }
{
    let grain = grain_for(steps);
    steps / grain * grain
}

/// Whether that power of ten is at most the length.
fn fits(power: u8, length: u64) -> bool
    ensures { result ≡ nat_le (10 ^ power) length }
{
    match 10u64.checked_pow(u32::from(power)) {
        Some(step) => step <= length,
        None => false,
    }
}

/// Which power of ten the step of a bar of at most this length is.
#[tactic(auto, unfolding(crate::specs::Scale::step_for))]
fn step_for(length: u64, places: u8) -> u8
    requires { length < 2 ^ 32 }
    ensures step { result ≡ the_step_for length places }
    ensures within { result ≤ places }
    ensures short { 10 ^ result < 2 ^ 32 }
{
    let mut step = places;
    while step > 0 && !fits(step, length) {
        step -= 1;
    }
    step
}

/// The scale of a picture of this width, of a map whose points are told in units of the last of so many decimal places.
pub fn bar_for(width: u64, places: u8) -> Bar
    requires { width < 2 ^ 32 }
    ensures { result ≡ the_bar_for width places }
{
    let quarter = width / 4;
    let step = step_for(quarter, places);
    let unit = 10u64.pow(u32::from(step));
    let steps = cut_down(quarter / unit);
    Bar {
        length: steps * unit,
        steps,
        behind: places - step,
    }
}
