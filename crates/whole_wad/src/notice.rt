//! Who is told of the maps of a WAD.

use crate::fate::Fate;
use map_answers::sight_status::Status;

/// It is told of each map that isn't read or isn't there, and then the report's line of each other map as the map is done. It
/// returns, and changes no answer.
pub trait Notice {
    /// The map of this name is of UDMF and has no ENDMAP, so it isn't read. Each one is told before the first line, in the order of their entries.
    fn pass_over(&self, name: &str);

    /// The WAD has several entries of the name of this map, and the last one is taken. It is told before the first line too.
    fn take_last(&self, name: &str);

    /// A map of this name is asked for, and there is none.
    fn miss(&self, name: &str);

    /// A map got its table, and this is its line.
    fn tell(&self, line: &str);

    /// A map is refused for this, this becomes of its REJECT, and this is its line.
    fn refuse(&self, line: &str, refusal: Status, fate: &Fate);
}

/// Nobody is told.
#[derive(Drop)]
pub struct NoNotice;

impl Notice for NoNotice {
    fn pass_over(&self, _name: &str) {}

    fn take_last(&self, _name: &str) {}

    fn miss(&self, _name: &str) {}

    fn tell(&self, _line: &str) {}

    fn refuse(&self, _line: &str, _refusal: Status, _fate: &Fate) {}
}
