//! Laws of the steps, in the terms of the rules. Nothing here runs.
ghost use Rattle.std.specs.Prelude.{◌≡◌, ◌≤◌, ◌↔◌, ℕ, Bool, List, [], ◌∷◌, ◌++◌};
ghost use Rattle.civil_time.specs.LocalTime.{IsInstant};
ghost use Rattle.civil_time.specs.Zone.{ZoneRules, IsZone};
ghost use Rattle.court_days.specs.Calendar.{Entered, IsWithinLimits};
ghost use Rattle.court_days.specs.Holiday.{IsStatutory};
ghost use Rattle.court_days.specs.Hours.{IsAccessibleDay};
ghost use Rattle.court_days.specs.Legal.{IsBusinessDay, IsOpenBusinessDay};
ghost use Rattle.court_days.specs.Period.{IsFirstFrom, IsLastUpTo};
ghost use Rattle.court_days.specs.declared.calendar.Direction.{Direction};
ghost use Rattle.court_rules.specs.Standings.{standing, AreActs, end_of_start, extended_by, resumed_end};
ghost use Rattle.court_days.specs.declared.filing.End.{End};
ghost use Rattle.court_rules.specs.declared.act.Act.{Act};
ghost use Rattle.court_rules.specs.declared.act.Start.{Start};
ghost use Rattle.court_reasons.specs.Causes.{business_causes, day_causes, hour_causes};
ghost use Rattle.court_reasons.specs.Explains.{Explains};
ghost use Rattle.court_reasons.specs.Holidays.{IsStatutoryAs};
ghost use Rattle.court_reasons.specs.Passing.{AreDayCauses, AreBackCauses, AreHourCauses, HasCause, IsPassed, NamesDays, NamesDaysBack};
ghost use Rattle.court_reasons.specs.Steps.{passed, passed_back, steps_of_start, extended, steps_of_resumed, steps_of};
ghost use Rattle.court_reasons.specs.declared.cause.Causes.{Causes};
ghost use Rattle.court_reasons.specs.declared.statutory.StatutoryHoliday.{StatutoryHoliday};
ghost use Rattle.court_reasons.specs.declared.step.Step.{Step};

use court_rules::Standing;

/// The steps end in the standing that `due` returns.
pub fn steps_end_in_the_standing()
    ensures { (zone : ZoneRules) (entered : Entered) (acts : List Act)
        → (front : List Step) × (steps_of zone entered acts ≡ front ++ Step.Stands (standing zone entered acts) ∷ []) }
{}

/// The steps explain the acts of the deadline, each in its turn: which days are passed over and
/// why, where each period ends (Fed. R. Civ. P. 6(a)), and where the deadline stands; and no other
/// steps explain them.
pub fn steps_explain_alone()
    ensures { (zone : ZoneRules) (entered : Entered) (acts : List Act) (steps : List Step)
        → IsWithinLimits entered → IsZone zone → AreActs zone acts
        → Explains zone entered Standing.Vacated acts steps ↔ (steps ≡ steps_of zone entered acts) }
{}

/// The steps of an act that counts a period end in the end of the time that the act leaves running.
pub fn acts_end_in_their_ends()
    ensures start { (zone : ZoneRules) (entered : Entered) (start : Start)
        → (front : List Step) × (steps_of_start zone entered start
        ≡ front ++ Step.Ends (end_of_start zone entered start) ∷ []) }
    ensures extension { (zone : ZoneRules) (entered : Entered) (days : ℕ) (time end : End)
        → extended_by zone entered days (Standing.Running time) ≡ Standing.Running end
        → (front : List Step) × (extended zone entered days (Standing.Running time) ≡ front ++ Step.Ends end ∷ []) }
    ensures resumed { (entered : Entered) (day : ℕ) (three : Bool)
        → (front : List Step) × (steps_of_resumed entered day three
        ≡ front ++ Step.Ends (End.LastDay (resumed_end entered day three)) ∷ []) }
{}

/// A holiday of statute is one of the eleven, on its own day or where it is observed, and no day
/// has two (5 U.S.C. 6103(a), Fed. R. Civ. P. 6(a)(6)(A)).
pub fn holidays_are_eleven()
    ensures some { (day : ℕ) → day ≤ 1_000_000
        → IsStatutory day ↔ ((had : StatutoryHoliday) × IsStatutoryAs had day) }
    ensures one { (day : ℕ) (had other : StatutoryHoliday) → day ≤ 1_000_000
        → IsStatutoryAs had day → IsStatutoryAs other day → had ≡ other }
{}

/// The causes of a day are exactly those that are true of it (Fed. R. Civ. P. 6(a)(1)(C), 6(a)(3),
/// 6(a)(6)).
pub fn causes_are_true()
    ensures day { (entered : Entered) (direction : Direction) (day : ℕ) → day ≤ 1_000_000
        → AreDayCauses entered direction day (day_causes entered direction day) }
    ensures back { (entered : Entered) (direction : Direction) (day : ℕ) → day ≤ 1_000_000
        → AreBackCauses entered direction day (business_causes entered direction day) }
    ensures hours { (entered : Entered) (zone : ZoneRules) (direction : Direction) (instant day : ℕ)
        → IsWithinLimits entered → IsZone zone → IsInstant instant → 3660 ≤ day → day ≤ 741_000
        → AreHourCauses entered zone direction instant day (hour_causes entered zone direction instant day) }
{}

/// There is a cause just where no period may end on the day: a day that is passed over has at least
/// one, and the day of an end has none.
pub fn causes_tell_of_ends()
    ensures day { (entered : Entered) (direction : Direction) (day : ℕ) (causes : Causes)
        → AreDayCauses entered direction day causes
        → HasCause causes ↔ ¬ (IsOpenBusinessDay entered direction day) }
    ensures back { (entered : Entered) (direction : Direction) (day : ℕ) (causes : Causes)
        → AreBackCauses entered direction day causes
        → HasCause causes ↔ ¬ (IsBusinessDay entered direction day) }
    ensures hours { (entered : Entered) (zone : ZoneRules) (direction : Direction) (instant day : ℕ) (causes : Causes)
        → AreHourCauses entered zone direction instant day causes
        → HasCause causes ↔ ¬ (IsAccessibleDay entered zone direction instant day) }
{}

/// The days named as passed over are those from one up to the first on which the period may end, or back
/// to the last business day. They are in order, each with its causes, of which there is at least one.
pub fn days_are_named()
    ensures on { (entered : Entered) (direction : Direction) (from end : ℕ) → end ≤ 1_000_000
        → IsFirstFrom (IsOpenBusinessDay entered direction) from end
        → NamesDays (IsPassed (AreDayCauses entered direction)) from end (passed (day_causes entered direction) from end) }
    ensures back { (entered : Entered) (from last : ℕ) → from ≤ 1_000_000
        → IsLastUpTo (IsBusinessDay entered Direction.Backward) from last
        → NamesDaysBack (IsPassed (AreBackCauses entered Direction.Backward)) from last
        (passed_back (business_causes entered Direction.Backward) from last) }
    ensures hours { (entered : Entered) (zone : ZoneRules) (direction : Direction) (instant from end : ℕ)
        → IsWithinLimits entered → IsZone zone → IsInstant instant → 3660 ≤ from → end ≤ 741_000
        → IsFirstFrom (IsAccessibleDay entered zone direction instant) from end
        → NamesDays (IsPassed (AreHourCauses entered zone direction instant)) from end
        (passed (hour_causes entered zone direction instant) from end) }
{}
