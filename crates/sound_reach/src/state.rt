//! Where a noise is, and whether it may still pass a line that blocks sound.

ghost use Rattle.std.specs.Prelude.{◌≡◌};
ghost use Rattle.sound_reach.specs.State.{after_of, before_of, state_place};

use crate::doors::Door;

/// A sector, and whether a line that blocks sound may still be passed.
#[derive(Clone, Copy)]
pub struct State {
    pub sector: u16,
    pub spare: bool,
}

/// The place of the state in a list with two entries for each sector.
pub fn place(state: State) -> usize
    ensures { result ≡ state_place state }
{
    let spare = if state.spare { 1 } else { 0 };
    state.sector as usize * 2 + spare
}

/// The state behind the door for one who is before it, with or without a line to spare.
pub fn after(door: Door, spare: bool) -> Option<State>
    ensures { result ≡ after_of door spare }
{
    if door.damped && !spare {
        return None;
    }
    Some(State {
        sector: door.to,
        spare: spare && !door.damped,
    })
}

/// The state behind the door from which one comes out before it, with or without a line to spare.
pub fn before(door: Door, spare: bool) -> Option<State>
    ensures { result ≡ before_of door spare }
{
    if door.damped && spare {
        return None;
    }
    Some(State {
        sector: door.to,
        spare: spare || door.damped,
    })
}
