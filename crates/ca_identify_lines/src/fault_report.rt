//! What is reported of a fault for which a file isn't identified.

ghost use Rattle.ca_answers.specs.declared.cause.Cause.{Cause};
ghost use Rattle.ca_report.specs.declared.detailed_fault.DetailedFault.{DetailedFault};
ghost use Rattle.ca_identify_lines.specs.FaultReports.{IsReportOf};

use ca_answers::Cause;
use ca_pattern::LocatedFault;
use ca_report::DetailedFault;

/// The report of a fault: its cause, and what is known of it.
pub fn report_of(refused: LocatedFault) -> DetailedFault<Cause>
    requires { (report : DetailedFault Cause) × IsReportOf refused report }
    ensures { IsReportOf refused result }
{
    match refused {
        LocatedFault::Unread(bad) => DetailedFault {
            fault: Cause::BadPattern(bad.fault),
            line: bad.line,
            rule_text: None,
        },
        LocatedFault::UnnamedRule(unnamed) => DetailedFault {
            fault: Cause::BadRule(unnamed.fault),
            line: None,
            rule_text: Some(unnamed.rule_text),
        },
        LocatedFault::StateTooLarge => DetailedFault::of(Cause::StateTooLarge),
        LocatedFault::Work => DetailedFault::of(Cause::Work),
        LocatedFault::Memory => DetailedFault::of(Cause::Memory),
        LocatedFault::GenTooLarge | LocatedFault::Range | LocatedFault::TooManyCells => {
            unreachable!()
        }
    }
}
