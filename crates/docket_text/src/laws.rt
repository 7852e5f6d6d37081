//! Laws of the functions in specs/. Nothing here runs.
ghost use Rattle.std.specs.Prelude.{◌≡◌, ◌↔◌, ℕ, ℤ, ◌+◌, ◌-◌, ◌<◌, ◌≤◌, ◌≢◌, ◌++◌, List, length, AllPairs, IsTrue, Contains, codes, nat_eq};
ghost use Rattle.std.specs.List.{ends_with};
ghost use Rattle.std.specs.List.Sorted.{IsStrictlyIncreasing};
ghost use Rattle.std.specs.declared.cmp.Ordering.TheVariants.{Less};
ghost use Rattle.civil_time.specs.Civil.{HasYmd, FallsOn, weekday};
ghost use Rattle.court_days.specs.Court.{CourtSettings};
ghost use Rattle.court_days.specs.Holiday.{is_fixed_date, is_monday_date, is_thursday_date, IsFixedHoliday, IsStatutory};
ghost use Rattle.court_rules.specs.LocalRules.{IsDeadlineRule, deadline_rule_name};
ghost use Rattle.court_rules.specs.declared.deadline_rule.DeadlineRule.{DeadlineRule};
ghost use Rattle.docket_history.specs.declared.record.DueRow.{DueRow};
ghost use Rattle.docket_text.specs.CalendarOrder.{IsCalendar, calendar_cmp};
ghost use Rattle.docket_text.specs.CalendarTexts.{calendar_line};
ghost use Rattle.docket_text.specs.HolidayNames.{IsObserved, fixed_name, monday_name, holiday_name};
ghost use Rattle.docket_text.specs.HolidayTexts.{IsOfYear, days_of_year, holidays};

/// A line of the calendar has 57 bytes and LF where its parts fit their columns, as those of a docket
/// and the names of the rules do.
pub fn lines_have_57_bytes()
    ensures lines { (court : CourtSettings) (row : DueRow) → row.case < 10_000_000
        → row.number < 10_000 → length row.rule ≤ 16 → row.party < 10_000
        → length (calendar_line court row) ≡ 58 }
    ensures rules { (rule : DeadlineRule) → IsDeadlineRule rule → length (deadline_rule_name rule) ≤ 16 }
{}

/// No row of a calendar is before one that comes earlier.
pub fn calendars_are_in_order()
    ensures { (court : CourtSettings) (rows listed : List DueRow) → IsCalendar court rows listed
        → AllPairs (λ a b. calendar_cmp court b a ≢ Less) listed }
{}

/// The days of a year are those whose date has that year, in order.
pub fn days_have_their_year()
    ensures days { (year day : ℕ) → 2000 ≤ year → year ≤ 2099
        → Contains (days_of_year year) day ↔ IsOfYear year day }
    ensures in_order { (year : ℕ) → IsStrictlyIncreasing (days_of_year year) }
{}

/// The holidays of a year are its statutory days, in order.
pub fn holidays_are_statutory()
    ensures days { (year day : ℕ) → 2000 ≤ year → year ≤ 2099
        → Contains (holidays year) day ↔ (IsStatutory day × IsOfYear year day) }
    ensures in_order { (year : ℕ) → IsStrictlyIncreasing (holidays year) }
{}

/// The names of the holidays: of a fixed date and of a date of a Monday by their months. Where one of
/// a fixed date falls on a Saturday or a Sunday, its name is on the Friday before or on the Monday
/// after with `(observed)`, which no other day has.
pub fn holidays_have_names()
    ensures fixed { (day : ℕ) (year : ℤ) (month day_of_month : ℕ) → HasYmd day year month day_of_month
        → IsTrue (is_fixed_date month day_of_month) → holiday_name day ≡ fixed_name month }
    ensures monday { (day : ℕ) (year : ℤ) (month day_of_month : ℕ) → day ≤ 1_000_000
        → HasYmd day year month day_of_month → weekday day ≡ 1
        → IsTrue (is_monday_date month day_of_month) → holiday_name day ≡ monday_name month }
    ensures thursday { (day : ℕ) → weekday day ≡ 4 → FallsOn is_thursday_date day
        → holiday_name day ≡ codes "Thanksgiving Day" }
    ensures friday_before { (day : ℕ) → day ≤ 1_000_000 → weekday day ≡ 5 → IsFixedHoliday (day + 1)
        → holiday_name day ≡ holiday_name (day + 1) ++ codes " (observed)" }
    ensures monday_after { (day : ℕ) → weekday day ≡ 1 → IsFixedHoliday (day - 1)
        → holiday_name day ≡ holiday_name (day - 1) ++ codes " (observed)" }
    ensures no_other { (day : ℕ) → day ≤ 1_000_000 → IsStatutory day
        → IsTrue (ends_with nat_eq (holiday_name day) (codes " (observed)")) → IsObserved day }
{}
