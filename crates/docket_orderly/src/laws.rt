//! Laws of the definitions of specs/, with nothing to run.
ghost use Rattle.std.specs.List.{AllByRecursion};
ghost use Rattle.court_days.specs.Court.{CourtSettings};
ghost use Rattle.docket_history.specs.Histories.{History};
ghost use Rattle.docket_decisions.specs.Outcomes.{IsHistory};
ghost use Rattle.docket_decisions.specs.Tables.{rows_of};
ghost use Rattle.docket_wire.specs.Valid.{IsCommand};
ghost use Rattle.docket_orderly.specs.Orderly.{IsCourtSettings, IsOrderly};

/// The rows of a docket are orderly if its court and its commands hold what their types hold. The cases are
/// numbered from 1 without gaps, so are the parties, entries and deadlines of a case, the acts of a deadline
/// and the local rules. The numbers of calendar rows rise. A key has one receipt at most, a name one local
/// rule.
pub fn dockets_are_orderly()
    ensures { (court : CourtSettings) (h : History) → IsCourtSettings court → IsHistory court h
        → AllByRecursion IsCommand h → IsOrderly court (rows_of court h) }
{}
