//! What `sound` says of a map: the path of a noise, or how many pairs of sectors hear each other.

ghost use Rattle.std.specs.Prelude.{◌≡◌, ◌++◌, ◌<◌, IfErr, IfOk, MatchOption, OnOk, length, option_map, string_bytes, ⊤};
ghost use Rattle.std.specs.List.{flat_map};
ghost use Rattle.sight_names.specs.Map.{map_of};
ghost use Rattle.map_answers.specs.SightStatus.Answer.{GivesCalled, line_answer};
ghost use Rattle.map_answers.specs.SightStatus.Status.{IsOfSoundTest};
ghost use Rattle.map_answers.specs.Noise.{CountCalls, HasDampers, IsMissing, PairCalls, SoundCalls, heard_line, no_noise_line, noise_line, path_line, path_words, side_word};
ghost use Rattle.map_answers.specs.Views.{located_map};

use crate::input::Input;
use crate::sight_status::{
    Status, Why, push_count, push_count_line, push_number, push_pair_line, push_text,
};
use sight_names::{Pair, Plan, Side};
use sound_reach::{Heard, count_heard, noise};
use std::alloc::{AllocError, Global};

fn heard_line_of(
    alloc: Global,
    name: &str,
    sectors: u16,
    heard: Heard,
) -> Result<String, AllocError>
    ensures { IfOk result (λ line. string_bytes line ≡ heard_line name.now sectors heard.pairs heard.silent) }
{
    let mut line = String::from_str(alloc, "sound ")?;
    line.push_str(name)?;
    push_count(alloc, &mut line, " sectors ", u64::from(sectors))?;
    push_count(alloc, &mut line, " heard ", u64::from(heard.pairs))?;
    push_count_line(alloc, &mut line, " silent ", u64::from(heard.silent))?;
    Ok(line)
}

fn push_side_word(alloc: Global, line: &mut String, side: Side) -> Result<(), AllocError>
    ensures { OnOk result (string_bytes line.new ≡ string_bytes line.old ++ side_word side) }
{
    line.push_str(" ")?;
    line.push_str(&side.to_string(alloc)?)
}

/// Adds the sides of a path.
fn push_sides(alloc: Global, line: &mut String, sides: &[Side]) -> Result<(), AllocError>
    ensures { OnOk result (string_bytes line.new ≡ string_bytes line.old ++ flat_map side_word sides.now) }
{
    for side in sides {
        push_side_word(alloc, line, *side)?;
    }
    Ok(())
}

/// Adds the words of a path.
fn push_path(alloc: Global, line: &mut String, sides: &[Side]) -> Result<(), AllocError>
    ensures { OnOk result (string_bytes line.new ≡ string_bytes line.old ++ path_words sides.now) }
{
    if sides.is_empty() {
        return Ok(());
    }
    line.push_str(" by")?;
    push_sides(alloc, line, sides)
}

fn noise_line_of(alloc: Global, pair: Pair, sides: &[Side]) -> Result<String, AllocError>
    ensures { IfOk result (λ line. string_bytes line ≡ noise_line pair sides.now) }
{
    let mut line = String::from_str(alloc, "noise ")?;
    push_number(alloc, &mut line, u64::from(pair.a))?;
    push_count(alloc, &mut line, " ", u64::from(pair.b))?;
    push_path(alloc, &mut line, sides)?;
    push_text(&mut line, "\n")?;
    Ok(line)
}

fn no_noise_line_of(alloc: Global, pair: Pair) -> Result<String, AllocError>
    ensures { IfOk result (λ line. string_bytes line ≡ no_noise_line pair) }
{
    let mut line = String::new(alloc);
    push_pair_line(alloc, &mut line, "no noise ", pair.a, pair.b)?;
    Ok(line)
}

fn line_of_path(alloc: Global, pair: Pair, path: Option<Vec<Side>>) -> Result<String, AllocError>
    ensures { IfOk result (λ line. string_bytes line ≡ path_line pair (option_map (λ v. v.items) path)) }
{
    match path {
        Some(sides) => noise_line_of(alloc, pair, &sides),
        None => no_noise_line_of(alloc, pair),
    }
}

/// The path of a noise from the one sector of the pair to the other, where there is one.
fn judge_path(alloc: Global, plan: &Plan, dampers: &[bool], pair: Pair) -> Result<String, Status>
    requires each { length dampers.now ≡ length plan.now.lines }
    requires first { pair.a < plan.now.sectors }
    requires second { pair.b < plan.now.sectors }
    ensures judged { GivesCalled ⊤ (PairCalls (map_of plan.now) dampers.now pair) (line_answer result) }
    ensures refusals { IfErr result IsOfSoundTest }
{
    let path = match noise(alloc, plan, dampers, pair.a, pair.b) {
        Ok(path) => path,
        Err(memory) => return Err(Status::Memory(memory)),
    };
    match line_of_path(alloc, pair, path) {
        Ok(line) => Ok(line),
        Err(refused) => Err(Status::Memory(refused.into())),
    }
}

/// The first number of the pair that is of no sector.
pub fn missing(plan: &Plan, pair: Pair) -> Option<u16>
    ensures { MatchOption result ((pair.a < plan.now.sectors) × (pair.b < plan.now.sectors)) (IsMissing (map_of plan.now) pair) }
{
    if pair.a >= plan.sectors {
        return Some(pair.a);
    }
    if pair.b >= plan.sectors {
        return Some(pair.b);
    }
    None
}

/// The same, where the numbers may be of no sectors.
fn judge_pair(alloc: Global, plan: &Plan, dampers: &[bool], pair: Pair) -> Result<String, Status>
    requires { length dampers.now ≡ length plan.now.lines }
    ensures judged { GivesCalled ⊤ (PairCalls (map_of plan.now) dampers.now pair) (line_answer result) }
    ensures refusals { IfErr result IsOfSoundTest }
{
    if let Some(sector) = missing(plan, pair) {
        return Err(Status::No(Why::NoSector(sector)));
    }
    judge_path(alloc, plan, dampers, pair)
}

/// How many pairs of sectors hear each other.
fn judge_counts(alloc: Global, plan: &Plan, name: &str, dampers: &[bool]) -> Result<String, Status>
    requires { length dampers.now ≡ length plan.now.lines }
    ensures judged { GivesCalled ⊤ (CountCalls name.now (map_of plan.now) dampers.now) (line_answer result) }
    ensures refusals { IfErr result IsOfSoundTest }
{
    let heard = match count_heard(alloc, plan, dampers) {
        Ok(heard) => heard,
        Err(memory) => return Err(Status::Memory(memory)),
    };
    match heard_line_of(alloc, name, plan.sectors, heard) {
        Ok(line) => Ok(line),
        Err(refused) => Err(Status::Memory(refused.into())),
    }
}

/// The path of a noise from the one sector of the pair to the other; without a pair, how many pairs of sectors hear each other.
pub fn judge_sound(
    alloc: Global,
    input: &Input,
    name: &str,
    pair: &Option<Pair>,
) -> Result<String, Status>
    requires dampers { HasDampers input.now }
    ensures judged { GivesCalled ⊤ (SoundCalls name.now pair.now (located_map input.now)) (line_answer result) }
    ensures refusals { IfErr result IsOfSoundTest }
{
    let dampers = input.dampers.as_slice();
    match pair {
        Some(pair) => judge_pair(alloc, &input.plan, dampers, *pair),
        None => judge_counts(alloc, &input.plan, name, dampers),
    }
}
