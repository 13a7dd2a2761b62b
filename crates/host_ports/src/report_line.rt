//! The report of a live station.

use crate::health_note::HealthNote;
use keying::Report;
use tnc_base::Octets;

/// A line of the report.
#[derive(Debug, Drop)]
pub enum ReportLine {
    /// A lane lost the samples from one place up to another, since they were overwritten before it read them.
    GapLine { lane: usize, from: u64, to: u64 },
    /// A connection was shut.
    ClosedLine { id: u32 },
    /// A frame was received: its text.
    ReceivedLine { text: Octets },
    /// A frame was sent: its text.
    SentLine { text: Octets },
    /// Something is told of the transmitter's key.
    KeyLine { report: Report },
    /// Something is told of the station's health.
    HealthLine { note: HealthNote },
}
