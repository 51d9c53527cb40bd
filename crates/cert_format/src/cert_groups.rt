//! Certificates of maps whose faces may have several sector names: version 2 of the format beside version 1.
//!
//! Version 2 begins with a table of groups of sectors. Triangles are labelled with groups, rays and trees are those of
//! groups, and the listed pairs are pairs of sectors. Each certificate has one spelling.

mod cert;
mod fields;
mod front;
mod groups;
mod laws;
mod printer;
mod reading;
mod writing;

pub use cert::{AnyCert, CertTwo, FrontTwo, Group};
pub use fields::{group_count, version_of};
pub use groups::groups_of;
pub use laws::one_spelling;
pub use printer::AnyPrinter;
pub use reading::{behind_sizes, front_two_of};
pub use writing::print_any;
pub(crate) use writing::{all_pieces, room_of};
