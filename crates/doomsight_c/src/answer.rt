//! The answer for two sectors as the numbers that C reads.

ghost use Rattle.std.specs.Prelude.{◌≡◌};
ghost use Rattle.doomsight_c.specs.Said.{sight_along as along_ray, answer_view, plain as plain_answer};

use crate::fault::left_of;
use pair_answer::PairAnswer;
use sight_names::Ray;

/// What is answered for two sectors, and along which ray they see each other. To C the fields are at the bytes 0, 2, 4, 6, 8,
/// 12, 16 and 24 of 32.
#[repr(C)]
#[derive(Clone, Copy)]
pub struct DoomsightAnswer {
    pub answer: u16,
    pub first_line: u16,
    pub first_left: u16,
    pub last_line: u16,
    pub last_left: u16,
    pub a: i32,
    pub b: i32,
    pub c: i64,
}

/// An answer without a ray.
fn plain(answer: u16) -> DoomsightAnswer
    ensures { result ≡ plain_answer answer }
{
    DoomsightAnswer {
        answer,
        first_line: 0,
        first_left: 0,
        last_line: 0,
        last_left: 0,
        a: 0,
        b: 0,
        c: 0,
    }
}

/// Sight along this ray.
fn along(ray: Ray) -> DoomsightAnswer
    ensures { result ≡ along_ray ray }
{
    DoomsightAnswer {
        answer: 1,
        first_line: ray.first.line,
        first_left: left_of(ray.first),
        last_line: ray.last.line,
        last_left: left_of(ray.last),
        a: ray.a,
        b: ray.b,
        c: ray.c,
    }
}

/// The numbers of an answer.
pub fn answer_of(given: PairAnswer) -> DoomsightAnswer
    ensures { result ≡ answer_view given }
{
    match given {
        PairAnswer::Sight(ray) => along(ray),
        PairAnswer::Touch => plain(2),
        PairAnswer::Blind => plain(3),
        PairAnswer::Listed => plain(4),
        PairAnswer::NoSector(_) => plain(0),
    }
}
