//! How few sides lead to a sector, by a search in breadth.

ghost use Rattle.std.specs.Prelude.{◌≡◌, ◌+◌, ◌*◌, ◌<◌, IfOk, OnOk, List, length};
ghost use Rattle.sound_reach.specs.declared.doors.Door.{Door};
ghost use Rattle.sound_reach.specs.State.{state_place};
ghost use Rattle.sound_reach.specs.Doors.{AreDoorsIndexed};
ghost use Rattle.sound_reach.specs.Routes.{AreDistances};
ghost use Rattle.sound_reach.specs.Search.{AreKept, IsSearchBegun, IsStateNoted, IsSoundSearch};

use crate::doors::Doors;
use crate::state::{State, before, place};
use sight_names::Memory;
use std::alloc::Global;

/// A state, and how few sides lead from it to the sector that is searched for.
#[derive(Clone, Copy)]
pub struct Reached {
    pub state: State,
    pub distance: u32,
}

/// The states that were reached so far, by their places and in the order in which they were.
#[derive(Drop)]
pub struct Search {
    pub to: u16,
    pub distances: Vec<Option<u32>>,
    pub queue: Vec<Reached>,
}

impl Search {
    /// Notes that so few sides lead from the state, unless it was reached before.
    fn note(&mut self, state: State, distance: u32) -> Result<(), Memory>
        requires { state_place state < length self.old.distances.items }
        ensures to { self.new.to ≡ self.old.to }
        ensures noted { OnOk result (IsStateNoted state distance self.old.distances.items self.old.queue.items self.new.distances.items self.new.queue.items) }
    {
        let at = place(state);
        if self.distances[at].is_none() {
            self.distances[at] = Some(distance);
            self.queue.push(Reached { state, distance })?;
        }
        Ok(())
    }

    /// Notes all states from which one step leads to the one at this place of the queue.
    fn settle(&mut self, doors: &Doors, head: usize) -> Result<(), Memory>
        requires indexed { AreDoorsIndexed doors.now }
        requires len { length self.old.distances.items ≡ doors.now.sectors * 2 }
        requires head { head < length self.old.queue.items }
        requires search { IsSoundSearch doors.now.doors.items self.old.to self.old.distances.items self.old.queue.items head }
        ensures to { self.new.to ≡ self.old.to }
        ensures len { OnOk result (length self.new.distances.items ≡ length self.old.distances.items) }
        ensures kept { OnOk result (AreKept self.old.distances.items self.new.distances.items) }
        ensures search { OnOk result (IsSoundSearch doors.now.doors.items self.old.to self.new.distances.items self.new.queue.items (head + 1)) }
    {
        let reached = self.queue[head];
        for door in doors.at(reached.state.sector) {
            if let Some(state) = before(*door, reached.state.spare) {
                self.note(state, reached.distance + 1)?;
            }
        }
        Ok(())
    }
}

/// A search that has reached the sector itself.
fn begun(alloc: Global, sectors: u16, to: u16) -> Result<Search, Memory>
    requires { to < sectors }
    ensures to { IfOk result (λ s. s.to ≡ to) }
    ensures len { IfOk result (λ s. length s.distances.items ≡ sectors * 2) }
    ensures begun { IfOk result (λ s. IsSearchBegun to s.distances.items) }
    ensures search { IfOk result (λ s. (es : List Door) → IsSoundSearch es to s.distances.items s.queue.items 0) }
{
    let distances = vec![in alloc; None; sectors as usize * 2]?;
    let mut search = Search {
        to,
        distances,
        queue: Vec::new(alloc),
    };
    search.note(
        State {
            sector: to,
            spare: false,
        },
        0,
    )?;
    search.note(
        State {
            sector: to,
            spare: true,
        },
        0,
    )?;
    Ok(search)
}

/// For each sector, without and with a line to spare, how few sides lead to this sector, if any do.
pub fn distances_to(alloc: Global, doors: &Doors, to: u16) -> Result<Vec<Option<u32>>, Memory>
    requires indexed { AreDoorsIndexed doors.now }
    requires within { to < doors.now.sectors }
    ensures { IfOk result (λ v. AreDistances doors.now.doors.items doors.now.sectors to v.items) }
{
    let mut search = begun(alloc, doors.sectors, to)?;
    let mut head = 0;
    while head < search.queue.len() {
        search.settle(doors, head)?;
        head += 1;
    }
    Ok(search.distances)
}
