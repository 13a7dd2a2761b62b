//! What is reported of the transmitter's key. Nothing of it takes memory.
ghost use Rattle.std.specs.Prelude.{◌≡◌, List, map};
ghost use Rattle.keying.specs.declared.report.Report.TheVariants.{Ready, Lost};
ghost use Rattle.key_port.specs.KeyEvents.{ready_report, lost_report, tick_report};
ghost use Rattle.key_port.specs.KeySides.{reports_in};
ghost use Rattle.tnc_ports.specs.KeyTurns.{key_line};
ghost use Rattle.tnc_ports.specs.ReportText.{ended_line, report_text};
ghost use Rattle.tnc_ports.specs.SampledWrites.{Puts};

use crate::writing::put;
use key_port::KeyReports;
use keying::{Report, Why};
use tnc_base::Sink;

/// Writes what is reported of a call of the key's machine, unless a write failed before.
pub(crate) fn put_reports<E: Sink>(report: &mut E, failed: &mut bool, told: KeyReports)
    ensures { Puts failed.old failed.new (report_text (map key_line (reports_in told)))
        (E.told report.old) (E.told report.new) }
{
    put_ready(report, failed, told.ready);
    put_lost(report, failed, told.lost);
    put_if(report, failed, told.off);
    put_lost(report, failed, told.failed);
}

fn put_ready<E: Sink>(report: &mut E, failed: &mut bool, ready: bool)
    ensures { Puts failed.old failed.new (report_text (map key_line (ready_report ready)))
        (E.told report.old) (E.told report.new) }
{
    if ready {
        put_line(report, failed, Report::Ready);
    }
}

fn put_lost<E: Sink>(report: &mut E, failed: &mut bool, lost: Option<Why>)
    ensures { Puts failed.old failed.new (report_text (map key_line (lost_report lost)))
        (E.told report.old) (E.told report.new) }
{
    if let Some(why) = lost {
        put_line(report, failed, Report::Lost(why));
    }
}

fn put_if<E: Sink>(report: &mut E, failed: &mut bool, told: Option<Report>)
    ensures { Puts failed.old failed.new (report_text (map key_line (tick_report told)))
        (E.told report.old) (E.told report.new) }
{
    if let Some(line) = told {
        put_line(report, failed, line);
    }
}

/// Writes a line, and the line feed that ends it.
fn put_line<E: Sink>(report: &mut E, failed: &mut bool, line: Report)
    ensures { Puts failed.old failed.new (ended_line (key_line line)) (E.told report.old) (E.told report.new) }
{
    put(report, failed, line.text().as_slice());
    put(report, failed, b"\n");
}
