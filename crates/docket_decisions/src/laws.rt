//! Laws of the definitions in specs/. Nothing here runs.
ghost use Rattle.std.specs.Prelude.{◌≡◌, ◌↔◌, ℕ, ◌+◌, ◌∷◌, ◌++◌, [], List, Some, slice_get};
ghost use Rattle.civil_time.specs.Zone.{ZoneRules};
ghost use Rattle.court_days.specs.Court.{CourtSettings};
ghost use Rattle.court_rules.specs.Standings.{standing};
ghost use Rattle.court_rules.specs.declared.act.Act.{Act};
ghost use Rattle.docket_command.specs.declared.command.Command.{Command};
ghost use Rattle.docket_history.specs.CalendarItems.{calendar_of, without_short_days};
ghost use Rattle.docket_decisions.specs.Decisions.{IsSoundView};
ghost use Rattle.docket_history.specs.declared.item.CalendarItem.{CalendarItem};
ghost use Rattle.docket_history.specs.declared.item.CalendarItem.TheVariants as item;
ghost use Rattle.std.specs.List.{Contains, filter_map};
ghost use Rattle.docket_history.specs.Histories.{History, case_rows, party_rows, entry_rows, parties_of_case, entries_of_case, deadline_rows, deadlines_of_case, deadline_rows_from, act_rows, acts_of_deadline, standing_rows, local_rule_rows, case_row, party_row, entry_row, local_rule_row};
ghost use Rattle.docket_history.specs.Actions.{opened, rule_entered};
ghost use Rattle.docket_history.specs.InOrder.{in_order, numbered_by, party_added, entry_filed, gathered, asked_in_order, made_in, acts_on, IsAddedAndKept};
ghost use Rattle.docket_history.specs.declared.row.NewDeadline.{NewDeadline};
ghost use Rattle.docket_history.specs.declared.row.CalendarRow.{CalendarRow};
ghost use Rattle.docket_history.specs.Limits.{IsWithinLimits};
ghost use Rattle.docket_decisions.specs.Outcomes.{IsHistory, shown};

/// Every history keeps to the limits, and what it shows about a command is sound.
pub fn limits_are_kept()
    ensures histories { (court : CourtSettings) (h : History) → IsHistory court h → IsWithinLimits court h }
    ensures views { (court : CourtSettings) (h : History) (c : Command)
        → IsHistory court h → IsSoundView court (shown court h c) }
{}

/// The cases are those that were opened, in order, numbered from 1; so are the local rules and, within a
/// case, its parties and its entries.
pub fn rows_are_numbered_in_order()
    ensures cases { (h : History) → case_rows h ≡ numbered_by case_row 1 (filter_map opened (in_order h)) }
    ensures parties { (h : History) (k : ℕ) → parties_of_case k (party_rows h)
        ≡ numbered_by party_row 1 (filter_map (party_added k) (in_order h)) }
    ensures entries { (h : History) (k : ℕ) → entries_of_case k (entry_rows h)
        ≡ numbered_by entry_row 1 (filter_map (entry_filed k) (in_order h)) }
    ensures rules { (h : History) → local_rule_rows h ≡ numbered_by local_rule_row 1 (filter_map rule_entered (in_order h)) }
{}

/// The deadlines of a case are those that the commands naming it make, in order, numbered from 1; the
/// acts of each are its first act, followed by the acts of the commands that name it, in order.
pub fn acts_are_in_order()
    ensures deadlines { (h : History) (k : ℕ) → deadlines_of_case k (deadline_rows h)
        ≡ deadline_rows_from k 1 (gathered (made_in k) (asked_in_order h)) }
    ensures acts { (court : CourtSettings) (h : History) → IsHistory court h
        → (k n : ℕ) (made : NewDeadline) → slice_get (gathered (made_in k) (asked_in_order h)) n ≡ Some made
        → acts_of_deadline k (n + 1) (act_rows h) ≡ made.first ∷ gathered (acts_on k (n + 1)) (in_order h) }
{}

/// The calendar has a row if a command added it and no later one withdraws it.
pub fn rows_stand_until_withdrawn()
    ensures { (h : History) (row : CalendarRow) → Contains (standing_rows h) row ↔ IsAddedAndKept h row }
{}

/// A short day moves no deadline. Where each stands depends only on the days and the spans of the
/// calendar, not on when the clerk's office closes for the day.
pub fn short_days_move_no_deadline()
    ensures alone { (zone : ZoneRules) (items : List CalendarItem) (acts : List Act)
        → standing zone (calendar_of (without_short_days items)) acts ≡ standing zone (calendar_of items) acts }
    ensures entered { (zone : ZoneRules) (items : List CalendarItem) (day close : ℕ) (acts : List Act)
        → standing zone (calendar_of (items ++ item.Short day close ∷ [])) acts ≡ standing zone (calendar_of items) acts }
{}
