//! The names of the reports of a desk.

/// The name of a report of a desk.
#[derive(Clone, Copy, Debug, PartialEq, Eq)]
pub enum ReportName {
    /// How many rows show each attendee.
    Load,
    /// How far rows are.
    Progress,
    /// Cancelled series, instances and ranges.
    Cancelled,
    /// Answers and refresh requests that belong to nothing.
    Orphans,
    /// Refresh requests that wait for an answer.
    Refresh,
}

impl ReportName {
    ghost use Rattle.std.specs.Prelude.{◌≡◌, ◌↔◌, IsTrue};
    ghost use Rattle.itip_report.specs.Named.{IsOfRows};
    ghost use Rattle.itip_report.specs.ReportNames.{name_text};

    /// The name as it is written: `load`, `progress`, `cancelled`, `orphans` or `refresh`.
    pub fn as_str(self) -> &'static str
        ensures { result.now ≡ name_text self }
    {
        match self {
            ReportName::Load => "load",
            ReportName::Progress => "progress",
            ReportName::Cancelled => "cancelled",
            ReportName::Orphans => "orphans",
            ReportName::Refresh => "refresh",
        }
    }

    /// Whether the report is of the rows of a window, which may be too many.
    pub fn is_of_rows(self) -> bool
        ensures { IsTrue result ↔ IsOfRows self }
    {
        match self {
            ReportName::Load | ReportName::Progress => true,
            ReportName::Cancelled | ReportName::Orphans | ReportName::Refresh => false,
        }
    }
}
