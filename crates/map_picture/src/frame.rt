//! The frame of a picture, and the sizes that follow from it.

ghost use Rattle.std.specs.Prelude.{◌≡◌, ◌^◌, ◌<◌, ◌≤◌};
ghost use Rattle.std.specs.Int.{int_max, int_min};
ghost use Rattle.map_picture.specs.Frame.{place_across as the_across, place_down as the_down, frame_of_points as the_frame_of, height_of, sizes_for as the_sizes_for, sizes_of_frame as the_sizes_of, widened as widened_of, widened_by as the_widened_by, width_of};

use sight_names::Pt;

/// The least and greatest coordinates of the points, in the map's own unit.
#[derive(Clone, Copy)]
pub struct Frame {
    pub left: i32,
    pub right: i32,
    pub bottom: i32,
    pub top: i32,
}

fn lesser(a: i32, b: i32) -> i32
    ensures { result ≡ int_min a b }
{
    a.min(b)
}

fn greater(a: i32, b: i32) -> i32
    ensures { result ≡ int_max a b }
{
    a.max(b)
}

fn widened(frame: Frame, p: Pt) -> Frame
    ensures { result ≡ widened_of frame p }
{
    Frame {
        left: lesser(frame.left, p.x),
        right: greater(frame.right, p.x),
        bottom: lesser(frame.bottom, p.y),
        top: greater(frame.top, p.y),
    }
}

fn widened_by(frame: Frame, points: &[Pt]) -> Frame
    ensures { result ≡ the_widened_by frame points.now }
{
    let mut all = frame;
    for p in points {
        all = widened(all, *p);
    }
    all
}

/// The least frame that has all the points; where there is none, that of the origin.
pub fn frame_of(points: &[Pt]) -> Frame
    ensures { result ≡ the_frame_of points.now }
{
    if points.is_empty() {
        return Frame {
            left: 0,
            right: 0,
            bottom: 0,
            top: 0,
        };
    }
    let p = points[0];
    let one = Frame {
        left: p.x,
        right: p.x,
        bottom: p.y,
        top: p.y,
    };
    widened_by(one, &points[1..])
}

/// From the left to the right.
pub fn width(frame: Frame) -> u64
    ensures width { result ≡ width_of frame }
    ensures short { result < 2 ^ 32 }
{
    u64::from(frame.right.abs_diff(frame.left))
}

/// From the bottom to the top.
fn height(frame: Frame) -> u64
    ensures height { result ≡ height_of frame }
    ensures short { result < 2 ^ 32 }
{
    u64::from(frame.top.abs_diff(frame.bottom))
}

/// The sizes of a picture, in the map's own unit, and its sides in pixels.
#[derive(Clone, Copy)]
pub struct Sizes {
    /// What is left free on each side of the map.
    pub margin: u64,
    /// How thick a thin line is, where strokes aren't in pixels.
    pub stroke: u64,
    pub wide: u64,
    pub high: u64,
    pub wide_pixels: u64,
    pub high_pixels: u64,
    /// How far below the upper edge the strip's middle is, in which the scale lies.
    pub strip: u64,
}

fn sizes_for(width: u64, height: u64) -> Sizes
    requires width { width < 2 ^ 32 }
    requires height { height < 2 ^ 32 }
    ensures sizes { result ≡ the_sizes_for width height }
    ensures wide { result.wide < 2 ^ 33 }
    ensures thin { result.stroke < 2 ^ 22 }
{
    let longer = width.max(height);
    let around = 2 * (longer / 50 + 1);
    let wide = width + around;
    let high = height + 2 * around;
    Sizes {
        margin: longer / 50 + 1,
        stroke: longer / 1200 + 1,
        wide,
        high,
        wide_pixels: 1000 * wide / (longer + around),
        high_pixels: 1000 * high / (longer + around),
        strip: height + around,
    }
}

/// The sizes of a picture with this frame.
pub fn sizes_of(frame: Frame) -> Sizes
    ensures sizes { result ≡ the_sizes_of frame }
    ensures wide { result.wide < 2 ^ 33 }
    ensures thin { result.stroke < 2 ^ 22 }
{
    sizes_for(width(frame), height(frame))
}

/// How far the point is from the left edge.
pub fn across(frame: Frame, p: Pt) -> u64
    ensures place { result ≡ the_across frame p }
    ensures short { result < 2 ^ 32 }
{
    u64::from(p.x.abs_diff(frame.left))
}

/// How far the point is below the upper edge.
pub fn down(frame: Frame, p: Pt) -> u64
    ensures place { result ≡ the_down frame p }
    ensures short { result < 2 ^ 32 }
{
    u64::from(frame.top.abs_diff(p.y))
}
