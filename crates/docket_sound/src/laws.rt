//! Laws of the definitions of specs/, with nothing to run.
ghost use Rattle.std.specs.Prelude.{◌≡◌, List, length, map, ℕ, Bool, true};
ghost use Rattle.std.specs.List.{AllByRecursion};
ghost use Rattle.civil_time.specs.Zone.{ZoneRules};
ghost use Rattle.court_days.specs.Court.{CourtSettings, zone_of};
ghost use Rattle.docket_history.specs.CalendarItems.{calendar_of};
ghost use Rattle.docket_decisions.specs.EndRows.{end_rows};
ghost use Rattle.docket_history.specs.Histories.{History, items_of, standing_rows, next_row, case_rows, party_rows, parties_of_case, entry_rows, deadline_rows, deadlines_of_case, act_rows, local_rule_rows};
ghost use Rattle.docket_decisions.specs.Outcomes.{IsHistory, receipts};
ghost use Rattle.docket_history.specs.ShortDays.{day_and_span_rows, short_day_rows};
ghost use Rattle.docket_decisions.specs.Tables.{rows_of};
ghost use Rattle.docket_decisions.specs.declared.end_row.StoredEnd.{StoredEnd};
ghost use Rattle.docket_history.specs.declared.row.ActRow.{ActRow};
ghost use Rattle.docket_history.specs.declared.row.CalendarRow.{CalendarRow};
ghost use Rattle.docket_history.specs.declared.row.CaseRow.{CaseRow};
ghost use Rattle.docket_history.specs.declared.row.DeadlineRow.{DeadlineRow};
ghost use Rattle.docket_history.specs.declared.row.EntryRow.{EntryRow};
ghost use Rattle.docket_history.specs.declared.row.LocalRuleRow.{LocalRuleRow};
ghost use Rattle.docket_history.specs.declared.row.PartyRow.{PartyRow};
ghost use Rattle.docket_history.specs.declared.row.Receipt.{Receipt};
ghost use Rattle.docket_history.specs.declared.row.ShortDayRow.{ShortDayRow};
ghost use Rattle.docket_wire.specs.Valid.{IsCommand};
ghost use Rattle.docket_sound.specs.Acts.{AreSoundActs};
ghost use Rattle.docket_sound.specs.Calendars.{AreSoundCalendarRows};
ghost use Rattle.docket_sound.specs.Cases.{AreApart, AreSoundCases};
ghost use Rattle.docket_sound.specs.Deadlines.{AreSoundDeadlines, deadline_key};
ghost use Rattle.docket_sound.specs.Dues.{dues_of};
ghost use Rattle.docket_sound.specs.Entries.{AreSoundEntries};
ghost use Rattle.docket_sound.specs.KnownTexts.{is_one_of};
ghost use Rattle.docket_sound.specs.LocalRules.{AreSoundLocalRules, rule_names};
ghost use Rattle.docket_sound.specs.Numbers.{numbers_in};
ghost use Rattle.docket_sound.specs.Orders.{AreActsOf, AreDaysOf, AreInOrder, AreLocalRulesOf, calendar_order, short_day_order, case_order, party_order, entry_order, deadline_order, act_order, end_order, receipt_order, local_rule_order};
ghost use Rattle.docket_sound.specs.Parties.{AreSoundParties, party_key};
ghost use Rattle.docket_sound.specs.Receipts.{AreOfKnownKinds, AreSoundReceipts, IsSoundReceipt, receipt_row, key_of};
ghost use Rattle.docket_sound.specs.ShortDays.{AreSoundShortDays};
ghost use Rattle.docket_sound.specs.Standings.{standings_of};

/// The tables of every history are sound: the calendar, cases, parties, entries, local rules and
/// deadlines. The receipts are, too, where the values of the commands are those of a program, and their
/// kinds are known; no two have one key.
pub fn histories_are_sound()
    ensures calendar { (court : CourtSettings) (h : History) → IsHistory court h
        → AreSoundCalendarRows court (next_row h) (standing_rows h) }
    ensures cases { (court : CourtSettings) (h : History) → IsHistory court h → AreSoundCases (case_rows h) }
    ensures parties { (court : CourtSettings) (h : History) → IsHistory court h
        → AreSoundParties (length (case_rows h)) (party_rows h) }
    ensures entries { (court : CourtSettings) (h : History) → IsHistory court h
        → AreSoundEntries (length (case_rows h)) (entry_rows h) }
    ensures local_rules { (court : CourtSettings) (h : History) → IsHistory court h → AreSoundLocalRules (local_rule_rows h) }
    ensures deadlines { (court : CourtSettings) (h : History) → IsHistory court h
        → AreSoundDeadlines (length (case_rows h)) (λ k. length (parties_of_case k (party_rows h)))
        (is_one_of (rule_names (local_rule_rows h))) (deadline_rows h) }
    ensures receipts { (court : CourtSettings) (later : Bool) (h : History) → IsHistory court h → AllByRecursion IsCommand h
        → AreOfKnownKinds later h → AllByRecursion (IsSoundReceipt later) (map receipt_row (receipts court h)) }
    ensures kinds { (h : History) → AreOfKnownKinds true h }
    ensures keys { (court : CourtSettings) (h : History) → IsHistory court h → AreApart (map key_of (receipts court h)) }
{}

/// So are the rows of each table of a history as they are read, in the order of their keys: none of the
/// checks refuses a table of a docket. The counts of parties and deadlines, by which the tables after them
/// are judged, are those of the history.
pub fn sorted_histories_are_sound()
    ensures calendar { (court : CourtSettings) (h : History) (rows : List CalendarRow) → IsHistory court h
        → AreInOrder calendar_order (day_and_span_rows (standing_rows h)) rows → AreSoundCalendarRows court (next_row h) rows }
    ensures short_days { (court : CourtSettings) (h : History) (days : List CalendarRow) (rows : List ShortDayRow) → IsHistory court h
        → AreDaysOf h days
        → AreInOrder short_day_order (short_day_rows (standing_rows h)) rows
        → AreSoundShortDays court.close_minute (next_row h) (map (λ row. row.number) days) rows }
    ensures cases { (court : CourtSettings) (h : History) (rows : List CaseRow) → IsHistory court h
        → AreInOrder case_order (case_rows h) rows → AreSoundCases rows }
    ensures parties { (court : CourtSettings) (h : History) (rows : List PartyRow) → IsHistory court h
        → AreInOrder party_order (party_rows h) rows → AreSoundParties (length (case_rows h)) rows }
    ensures party_counts { (court : CourtSettings) (h : History) (rows : List PartyRow) → IsHistory court h
        → AreInOrder party_order (party_rows h) rows
        → (k : ℕ) → length (numbers_in k (map party_key rows)) ≡ length (parties_of_case k (party_rows h)) }
    ensures entries { (court : CourtSettings) (h : History) (rows : List EntryRow) → IsHistory court h
        → AreInOrder entry_order (entry_rows h) rows → AreSoundEntries (length (case_rows h)) rows }
    ensures local_rules { (court : CourtSettings) (h : History) (rows : List LocalRuleRow) → IsHistory court h
        → AreInOrder local_rule_order (local_rule_rows h) rows → AreSoundLocalRules rows }
    ensures deadlines { (court : CourtSettings) (h : History) (rules : List LocalRuleRow) (rows : List DeadlineRow) → IsHistory court h
        → AreLocalRulesOf h rules → AreInOrder deadline_order (deadline_rows h) rows
        → AreSoundDeadlines (length (case_rows h)) (λ k. length (parties_of_case k (party_rows h))) (is_one_of (rule_names rules)) rows }
    ensures deadline_counts { (court : CourtSettings) (h : History) (rows : List DeadlineRow) → IsHistory court h
        → AreInOrder deadline_order (deadline_rows h) rows
        → (k : ℕ) → length (numbers_in k (map deadline_key rows)) ≡ length (deadlines_of_case k (deadline_rows h)) }
    ensures acts { (court : CourtSettings) (h : History) (rows : List ActRow) → IsHistory court h
        → AreInOrder act_order (act_rows h) rows
        → AreSoundActs court (length (case_rows h)) (λ k. length (deadlines_of_case k (deadline_rows h))) rows }
    ensures receipts { (court : CourtSettings) (later : Bool) (h : History) (rows : List Receipt) → IsHistory court h
        → AllByRecursion IsCommand h → AreOfKnownKinds later h
        → AreInOrder receipt_order (receipts court h) rows → AreSoundReceipts later (map receipt_row rows) }
{}

/// The short days of a calendar move no end: by its days and spans alone the expected ends are the same, and
/// deadlines stand where they do.
pub fn short_days_move_nothing()
    ensures ends { (zone : ZoneRules) (rows : List CalendarRow) (acts : List ActRow)
        → dues_of zone (calendar_of (items_of (day_and_span_rows rows))) acts ≡ dues_of zone (calendar_of (items_of rows)) acts }
    ensures standings { (zone : ZoneRules) (rows : List CalendarRow) (acts : List ActRow)
        → standings_of zone (calendar_of (items_of (day_and_span_rows rows))) acts ≡ standings_of zone (calendar_of (items_of rows)) acts }
{}

/// The ends expected from the acts of a history, by its days and spans, are those of its running deadlines in the
/// order of their keys. So the stored ends of a history are the expected ones.
pub fn stored_ends_are_expected()
    ensures in_order { (court : CourtSettings) (h : History) (days : List CalendarRow) (acts : List ActRow)
        → IsHistory court h → AreDaysOf h days → AreActsOf h acts
        → AreInOrder end_order (end_rows court (rows_of court h))
        (dues_of (zone_of court) (calendar_of (items_of days)) acts) }
    ensures stored { (court : CourtSettings) (h : History) (days : List CalendarRow) (acts : List ActRow) (ends : List StoredEnd)
        → IsHistory court h → AreDaysOf h days → AreActsOf h acts
        → AreInOrder end_order (end_rows court (rows_of court h)) ends
        → ends ≡ dues_of (zone_of court) (calendar_of (items_of days)) acts }
{}
