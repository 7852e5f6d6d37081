//! Laws of the tests and the ends in specs/. Nothing here runs.
ghost use Rattle.std.specs.Prelude.{◌≡◌, ◌↔◌, ℕ, ◌+◌, ◌-◌, ◌*◌, ◌≤◌, max, true};
ghost use Rattle.civil_time.specs.Civil.{IsDayNumber};
ghost use Rattle.civil_time.specs.LocalTime.{local_day, IsInstant};
ghost use Rattle.civil_time.specs.Zone.{ZoneRules, IsZone};
ghost use Rattle.court_days.specs.Civil.{IsEnteredDay, IsEnteredSpan};
ghost use Rattle.court_days.specs.Calendar.{Entered, no_days, with_day, with_span, with_short, IsWithinLimits};
ghost use Rattle.court_days.specs.Court.{CourtSettings, zone_of};
ghost use Rattle.court_days.specs.Holiday.{IsStatutory, is_statutory};
ghost use Rattle.court_days.specs.Legal.{IsLegalHoliday, is_legal_holiday, IsBusinessDay, is_business_day, IsOpen, is_open, IsOpenBusinessDay, is_open_business_day};
ghost use Rattle.court_days.specs.Period.{IsEndOfDays, IsEndOfMonths, IsTrigger};
ghost use Rattle.court_days.specs.Ends.{end_of_days, end_of_months, service_end};
ghost use Rattle.court_days.specs.Hours.{IsAccessible, IsEndOfHours, IsNearEntered};
ghost use Rattle.court_days.specs.HourEnds.{is_accessible, end_of_hours};
ghost use Rattle.court_days.specs.declared.calendar.Direction.{Direction};
ghost use Rattle.court_days.specs.declared.calendar.DayKind.{DayKind};
ghost use Rattle.court_days.specs.Limits.{last_local_day};

/// Each test returns true exactly where the fact beside it holds.
pub fn tests_tell()
    ensures statutory { (day : ℕ) → day ≤ 1_000_000 → (is_statutory day ≡ true) ↔ IsStatutory day }
    ensures legal_holiday { (entered : Entered) (direction : Direction) (day : ℕ) → day ≤ 1_000_000
        → (is_legal_holiday entered direction day ≡ true) ↔ IsLegalHoliday entered direction day }
    ensures business { (entered : Entered) (direction : Direction) (day : ℕ) → day ≤ 1_000_000
        → (is_business_day entered direction day ≡ true) ↔ IsBusinessDay entered direction day }
    ensures opens { (entered : Entered) (day : ℕ) → (is_open entered day ≡ true) ↔ IsOpen entered day }
    ensures open_business { (entered : Entered) (direction : Direction) (day : ℕ) → day ≤ 1_000_000
        → (is_open_business_day entered direction day ≡ true) ↔ IsOpenBusinessDay entered direction day }
{}

/// A period of days has one end, which the function returns, and it lies near.
pub fn ends_are_found()
    ensures one { (entered : Entered) (direction : Direction) (trigger count day : ℕ)
        → IsWithinLimits entered → IsTrigger direction trigger → count ≤ 3650
        → IsEndOfDays entered direction trigger count day ↔ (day ≡ end_of_days entered direction trigger count) }
    ensures near { (entered : Entered) (direction : Direction) (trigger count : ℕ)
        → IsWithinLimits entered → IsTrigger direction trigger → count ≤ 3650
        → end_of_days entered direction trigger count ≤ max (trigger + count) 47_482 + 7 }
{}

/// So has a period of months.
pub fn ends_of_months_are_found()
    ensures one { (entered : Entered) (direction : Direction) (trigger months day : ℕ)
        → IsWithinLimits entered → IsDayNumber trigger → IsTrigger direction trigger → months ≤ 120
        → IsEndOfMonths entered direction trigger months day ↔ (day ≡ end_of_months entered direction trigger months) }
    ensures near { (entered : Entered) (direction : Direction) (trigger months : ℕ)
        → IsWithinLimits entered → IsDayNumber trigger → IsTrigger direction trigger → months ≤ 120
        → end_of_months entered direction trigger months ≤ max (trigger + 31 * months) 47_482 + 7 }
{}

/// So has a period of hours. The test of an hour shows whether the clerk's office was accessible,
/// and the local days of the ends lie near.
pub fn ends_of_hours_are_found()
    ensures one { (entered : Entered) (zone : ZoneRules) (direction : Direction) (start hours end : ℕ)
        → IsWithinLimits entered → IsZone zone → IsEnteredDay (local_day zone start) → hours ≤ 8760
        → IsEndOfHours entered zone direction start hours end
        ↔ (end ≡ end_of_hours entered zone direction start hours) }
    ensures near { (entered : Entered) (zone : ZoneRules) (direction : Direction) (start hours : ℕ)
        → IsWithinLimits entered → IsZone zone → IsEnteredDay (local_day zone start) → hours ≤ 8760
        → IsNearEntered (end_of_hours entered zone direction start hours) }
    ensures accessible { (entered : Entered) (zone : ZoneRules) (end : ℕ)
        → IsWithinLimits entered → IsZone zone → IsInstant (end - 3600) → IsInstant end
        → (is_accessible entered zone end ≡ true) ↔ IsAccessible entered zone end }
    ensures day { (zone : ZoneRules) (instant : ℕ) → IsZone zone → IsNearEntered instant
        → (10_578 ≤ local_day zone instant) × (local_day zone instant ≤ last_local_day) }
{}

/// The zone of each court is within its limits.
pub fn courts_have_zones()
    ensures { (court : CourtSettings) → IsZone (zone_of court) }
{}

/// A short day moves no end.
pub fn short_days_move_nothing()
    ensures days { (entered : Entered) (day minute : ℕ) (direction : Direction) (trigger count : ℕ)
        → end_of_days (with_short entered day minute) direction trigger count ≡ end_of_days entered direction trigger count }
    ensures months { (entered : Entered) (day minute : ℕ) (direction : Direction) (trigger months : ℕ)
        → end_of_months (with_short entered day minute) direction trigger months ≡ end_of_months entered direction trigger months }
    ensures service { (entered : Entered) (day minute end : ℕ)
        → service_end (with_short entered day minute) end ≡ service_end entered end }
    ensures hours { (entered : Entered) (day minute : ℕ) (zone : ZoneRules) (direction : Direction) (start hours : ℕ)
        → end_of_hours (with_short entered day minute) zone direction start hours
        ≡ end_of_hours entered zone direction start hours }
{}

/// Days, spans and short days that a court may enter keep a calendar within its limits.
pub fn limits_are_kept()
    ensures none { IsWithinLimits no_days }
    ensures with_day { (entered : Entered) (kind : DayKind) (day : ℕ)
        → IsWithinLimits entered → IsEnteredDay day → IsWithinLimits (with_day entered kind day) }
    ensures with_span { (entered : Entered) (start end : ℕ)
        → IsWithinLimits entered → IsEnteredSpan start end → IsWithinLimits (with_span entered start end) }
    ensures with_short { (entered : Entered) (day minute : ℕ)
        → IsWithinLimits entered → IsEnteredDay day → IsWithinLimits (with_short entered day minute) }
{}
