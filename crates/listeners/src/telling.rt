//! A finding told to a list of listeners.

ghost use Rattle.std.specs.Prelude.{◌≡◌, ◌<◌, ◌∷◌, [], map, IfOk, OnOk, OnErr};
ghost use Rattle.listeners.specs.Listening.{keep_of};
ghost use Rattle.listeners.specs.Told.{HeardMore, TellsOk, TellsInPart};

use crate::finding::{Finding, Keep};
use crate::listener::Listener;
use sight_names::Memory;

/// One of them hears it.
fn hear(listener: &mut Box<dyn Listener>, finding: &Finding) -> Result<Keep, Memory>
    ensures heard { OnOk result (HeardMore (finding.now ∷ []) (listener_state listener.old) (listener_state listener.new)) }
    ensures answer { IfOk result (λ keep. keep ≡ keep_of (listener_state listener.old) finding.now) }
    ensures memory { OnErr result (listener_state listener.new ≡ listener_state listener.old) }
{
    listener.hear(finding)
}

/// Each listener of the list hears the finding once, in order. Those that answer `Done` go to the end of `ended`, in order; the others stay,
/// in order. After `Memory` a front of the list has heard it, and nothing behind has: where `ended` found no room for all of them, no
/// listener has.
pub fn tell(
    list: &mut Vec<Box<dyn Listener>>,
    finding: &Finding,
    ended: &mut Vec<Box<dyn Listener>>,
) -> Result<(), Memory>
    ensures told { OnOk result (TellsOk finding.now (map (λ b. listener_state b) list.old.items) (map (λ b. listener_state b) list.new.items) (map (λ b. listener_state b) ended.old.items) (map (λ b. listener_state b) ended.new.items)) }
    ensures memory { OnErr result (TellsInPart finding.now (map (λ b. listener_state b) list.old.items) (map (λ b. listener_state b) list.new.items) (map (λ b. listener_state b) ended.old.items) (map (λ b. listener_state b) ended.new.items)) }
{
    ended.reserve(list.len())?;
    let mut at = 0;
    while at < list.len() {
        match hear(&mut list[at], finding)? {
            Keep::Stay => at += 1,
            Keep::Done => ended.push_reserved(list.remove(at)),
        }
    }
    Ok(())
}
