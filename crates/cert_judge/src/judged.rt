//! What the judge answers.

use group_checker::AnyVerdict;
use sight_names::CertFault;

/// The bytes are no certificate of the map, and why; or the verdict on the certificate that they spell.
#[derive(Clone, Copy, Debug)]
pub enum Judged {
    Unread(CertFault),
    Verdict(AnyVerdict),
}
