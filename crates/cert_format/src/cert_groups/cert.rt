//! The certificate of version 1 or 2.

use crate::{Cert, Counts, Sizes};
use sight_names::{Items, Pair};

/// Sectors, ascending.
pub type Group = Items<u16>;

/// What comes before the parts of a certificate of version 2: the sizes, with the groups as sectors, the groups, and how
/// many records there are of each kind.
#[derive(Drop)]
pub struct FrontTwo {
    pub sizes: Sizes,
    pub groups: Items<Group>,
    pub counts: Counts,
}

/// A certificate of version 2. The sectors of `cert` are the groups, by their places, and its own list is empty; the
/// listed pairs are pairs of the map's sectors.
#[derive(Drop)]
pub struct CertTwo {
    pub groups: Items<Group>,
    pub cert: Cert,
    pub listed: Items<Pair>,
}

/// A certificate of version 1 or 2; with one of version 2 the sizes of its map.
#[derive(Drop)]
pub enum AnyCert {
    One(Cert),
    Two(CertTwo, Sizes),
}
