//! What is drawn.

ghost use Rattle.std.specs.Prelude.{◌≡◌, IfErr};
ghost use Rattle.draw_answers.specs.Drawn.{IsMadeOf};
ghost use Rattle.map_answers.specs.declared.sight_status.status.Status.TheVariants as status;

use map_answers::sight_status::Status;
use sight_names::Memory;

/// The bytes of a picture, and the line that tells of it.
#[derive(Drop)]
pub struct Drawn {
    pub picture: Vec<u8>,
    pub line: String,
}

/// What was drawn, or the want of memory.
pub fn made(drawn: Result<Drawn, Memory>) -> Result<Drawn, Status>
    ensures made { IsMadeOf drawn result }
    ensures refusals { IfErr result (λ s. s ≡ status.Memory tt) }
{
    match drawn {
        Ok(drawn) => Ok(drawn),
        Err(memory) => Err(Status::Memory(memory)),
    }
}
