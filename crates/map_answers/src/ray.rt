//! What `ray` says of a map: whether a ray shows that two sectors see each other.

ghost use Rattle.std.specs.Prelude.{◌≡◌, IfErr, IfOk, Ok, string_bytes, ⊤};
ghost use Rattle.sight_names.specs.Map.{map_of};
ghost use Rattle.map_answers.specs.SightStatus.Answer.{GivesCalled, line_answer};
ghost use Rattle.map_answers.specs.Ray.{RayCalls, sight_line};
ghost use Rattle.map_answers.specs.SightStatus.Status.{IsOfRayTest};

use crate::sight_status::{Status, Why, push_pair_line};
use sight_names::{Plan, Ray};
use sight_ray::check_ray;
use std::alloc::{AllocError, Global};

fn make_sight_line(alloc: Global, from: u16, to: u16) -> Result<String, AllocError>
    ensures { IfOk result (λ line. string_bytes line ≡ sight_line from to) }
{
    let mut line = String::new(alloc);
    push_pair_line(alloc, &mut line, "sight ", from, to)?;
    Ok(line)
}

/// Whether the ray is a sight ray of the map, and between which sectors.
pub fn judge_ray(alloc: Global, plan: &Plan, ray: &Ray) -> Result<String, Status>
    ensures judged { GivesCalled ⊤ (RayCalls ray.now (map_of plan.now)) (line_answer result) }
    ensures refusals { IfErr result IsOfRayTest }
{
    match check_ray(plan, ray) {
        Ok((from, to)) => match make_sight_line(alloc, from, to) {
            Ok(line) => Ok(line),
            Err(refused) => Err(Status::Memory(refused.into())),
        },
        Err(fault) => Err(Status::No(Why::Ray(fault))),
    }
}
