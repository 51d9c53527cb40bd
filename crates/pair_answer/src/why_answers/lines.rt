//! The lines of answers for two sectors.

ghost use Rattle.std.specs.Prelude.{◌≡◌, ◌++◌, IfOk, OnOk, codes, string_bytes};
ghost use Rattle.std.specs.Fmt.{signed_decimal};
ghost use Rattle.sight_names.specs.Texts.{side_text};
ghost use Rattle.map_answers.specs.SightStatus.Texts.{two};
ghost use Rattle.pair_answer.specs.WhyAnswers.Lines.{blind_line, listed_line, number_words, ray_as_words, two_sides_words, sight_line_by, touch_line};

use map_answers::sight_status::{push_count, push_number, push_pair_line, push_text};
use sight_names::{Pair, Ray, Side};
use std::alloc::{AllocError, Global};

/// Adds a comma and a number with its sign.
fn push_factor(alloc: Global, line: &mut String, n: i32) -> Result<(), AllocError>
    ensures { OnOk result (string_bytes line.new ≡ string_bytes line.old ++ (codes "," ++ signed_decimal n)) }
{
    line.push_str(",")?;
    line.push_str(&n.to_string(alloc)?)
}

/// Adds a comma and a greater number with its sign.
fn push_offset(alloc: Global, line: &mut String, n: i64) -> Result<(), AllocError>
    ensures { OnOk result (string_bytes line.new ≡ string_bytes line.old ++ (codes "," ++ signed_decimal n)) }
{
    line.push_str(",")?;
    line.push_str(&n.to_string(alloc)?)
}

/// Adds a side.
fn push_side(alloc: Global, line: &mut String, side: Side) -> Result<(), AllocError>
    ensures { OnOk result (string_bytes line.new ≡ string_bytes line.old ++ side_text side) }
{
    line.push_str(&side.to_string(alloc)?)
}

/// Adds the two sides of a ray.
fn push_sides(alloc: Global, line: &mut String, ray: Ray) -> Result<(), AllocError>
    ensures { OnOk result (string_bytes line.new ≡ string_bytes line.old ++ two_sides_words ray) }
{
    push_side(alloc, line, ray.first)?;
    push_text(line, ",")?;
    push_side(alloc, line, ray.last)
}

/// Adds the three numbers of a ray.
fn push_numbers(alloc: Global, line: &mut String, ray: Ray) -> Result<(), AllocError>
    ensures { OnOk result (string_bytes line.new ≡ string_bytes line.old ++ number_words ray) }
{
    push_factor(alloc, line, ray.a)?;
    push_factor(alloc, line, ray.b)?;
    push_offset(alloc, line, ray.c)?;
    Ok(())
}

/// Adds a ray.
pub fn push_ray(alloc: Global, line: &mut String, ray: Ray) -> Result<(), AllocError>
    ensures { OnOk result (string_bytes line.new ≡ string_bytes line.old ++ ray_as_words ray) }
{
    push_sides(alloc, line, ray)?;
    push_numbers(alloc, line, ray)
}

/// They see each other along this ray.
pub fn sight_line_of(alloc: Global, pair: Pair, ray: Ray) -> Result<String, AllocError>
    ensures { IfOk result (λ line. string_bytes line ≡ sight_line_by pair ray) }
{
    let mut line = String::from_str(alloc, "sight ")?;
    push_number(alloc, &mut line, u64::from(pair.a))?;
    push_count(alloc, &mut line, " ", u64::from(pair.b))?;
    push_text(&mut line, " by ")?;
    push_ray(alloc, &mut line, ray)?;
    push_text(&mut line, "\n")?;
    Ok(line)
}

/// They don't see each other.
pub fn blind_line_of(alloc: Global, pair: Pair) -> Result<String, AllocError>
    ensures { IfOk result (λ line. string_bytes line ≡ blind_line pair) }
{
    let mut line = String::new(alloc);
    push_pair_line(alloc, &mut line, "blind ", pair.a, pair.b)?;
    Ok(line)
}

/// A face belongs to both.
pub fn touch_line_of(alloc: Global, pair: Pair) -> Result<String, AllocError>
    ensures { IfOk result (λ line. string_bytes line ≡ touch_line pair) }
{
    let mut line = String::new(alloc);
    push_pair_line(alloc, &mut line, "touch ", pair.a, pair.b)?;
    Ok(line)
}

/// Both budgets ran out.
pub fn listed_line_of(alloc: Global, pair: Pair) -> Result<String, AllocError>
    ensures { IfOk result (λ line. string_bytes line ≡ listed_line pair) }
{
    let mut line = String::new(alloc);
    push_pair_line(alloc, &mut line, "listed ", pair.a, pair.b)?;
    Ok(line)
}
