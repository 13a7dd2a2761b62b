//! The parts of the hosts' side of a live station.

use crate::client::Client;
use crate::id_range::IdRange;
use crate::report_line::ReportLine;
use crate::untaken::Untaken;
use station::Station;

/// What the hosts' side keeps.
#[derive(Drop)]
pub struct HostParts {
    /// The station.
    pub station: Station,
    /// The ids that came.
    pub came: Vec<IdRange>,
    /// The connections that are there, in the order in which they joined.
    pub clients: Vec<Client>,
    /// What came and is not taken yet, in the order in which it came.
    pub untaken: Vec<Untaken>,
    /// The lines of the report that are not printed yet.
    pub report: Vec<ReportLine>,
    /// The connections that were shut and of which the sockets are not told yet.
    pub to_shut: Vec<u32>,
    /// Those of which the station is not told yet that they left.
    pub leaving: Vec<u32>,
}
