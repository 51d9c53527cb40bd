//! The counts of a table as C reads them.

ghost use Rattle.std.specs.Prelude.{◌≡◌};
ghost use Rattle.doomsight_c.specs.Built.{counts_view};
ghost use Rattle.doomsight_c.specs.Checked.{totals_view};

use cert_checker::Totals;
use map_answers::Counts;

/// How many sectors a table has, how many pairs (a, b) with a <= b are set, clear and listed, and how many bytes the certificate has.
#[repr(C)]
#[derive(Clone, Copy)]
pub struct DoomsightCounts {
    pub sectors: u64,
    pub set: u64,
    pub clear: u64,
    pub listed: u64,
    pub cert_size: u64,
}

/// The counts with the size of the certificate.
pub fn counts_of(counts: Counts, cert_size: u64) -> DoomsightCounts
    ensures { result ≡ counts_view counts cert_size }
{
    DoomsightCounts {
        sectors: u64::from(counts.sectors),
        set: counts.set,
        clear: counts.clear,
        listed: counts.listed,
        cert_size,
    }
}

/// The totals of a check with the sectors of the map and the size of the certificate.
pub fn counts_of_totals(totals: Totals, sectors: u16, cert_size: u64) -> DoomsightCounts
    ensures { result ≡ totals_view totals sectors cert_size }
{
    DoomsightCounts {
        sectors: u64::from(sectors),
        set: u64::from(totals.set),
        clear: u64::from(totals.clear),
        listed: u64::from(totals.listed),
        cert_size,
    }
}
