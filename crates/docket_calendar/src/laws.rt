//! Laws of the calendar of a history, with nothing to run.
ghost use Rattle.std.specs.Prelude.{ℕ};
ghost use Rattle.court_days.specs.Court.{CourtSettings};
ghost use Rattle.docket_history.specs.Histories.{History};
ghost use Rattle.docket_decisions.specs.Tables.{rows_of};
ghost use Rattle.docket_text.specs.CalendarOrder.{IsCalendar};
ghost use Rattle.docket_calendar.specs.Calendar.{due_within, calendar_rows};

/// The calendar that is written lists the deadlines whose time runs to a day of the range, each once,
/// and none before one that comes earlier.
pub fn calendars_are_in_order()
    ensures { (court : CourtSettings) (h : History) (from to : ℕ)
        → IsCalendar court (due_within court from to (rows_of court h)) (calendar_rows court h from to) }
{}
