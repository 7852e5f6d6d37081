//! The questions to the tables.
ghost use Rattle.std.specs.Prelude.{◌≡◌};
ghost use Rattle.docket_tables.specs.Queries.{select_text};

/// A question to a table.
#[derive(Clone, Copy)]
pub enum Query {
    /// The row of the court.
    Court,
    /// The days and spans of the calendar, in the order of their numbers.
    Calendar,
    /// The day or span of a number.
    CalendarRow,
    /// The short days of the calendar, in the order of their numbers.
    ShortDays,
    /// The short day of a number.
    ShortDayRow,
    /// The case with the highest number.
    LastCase,
    /// The case of a label.
    CaseLabelled,
    /// The case of a number.
    CaseNumbered,
    /// The party with the highest number in a case.
    LastParty,
    /// The parties of a case, in the order of their numbers.
    Parties,
    /// The entry with the highest number in a case.
    LastEntry,
    /// The entries of a case, in the order of their numbers.
    Entries,
    /// The deadline with the highest number in a case.
    LastDeadline,
    /// The deadline of a case and a number.
    Deadline,
    /// The deadlines of a case, in the order of their numbers.
    Deadlines,
    /// The acts of a case, in the order of their deadlines and numbers.
    Acts,
    /// The acts of a deadline of a case, in the order of their numbers.
    DeadlineActs,
    /// The receipt under a key.
    Receipt,
    /// The ends of the deadlines of a case, in the order of the deadlines.
    Due,
    /// The local rule with the highest number.
    LastLocalRule,
    /// The local rule of a name.
    LocalRuleNamed,
    /// The local rules, in the order of their numbers.
    LocalRules,
}

/// The text of the statement for the question.
pub(crate) fn select_text(query: Query) -> &'static str
    ensures { result.now ≡ select_text query }
{
    match query {
        Query::Court => { "SELECT id, word, version, zone, close, next_row FROM court" }
        Query::Calendar => { "SELECT row_no, kind, a, b, name FROM calendar ORDER BY row_no" }
        Query::CalendarRow => { "SELECT row_no, kind, a, b, name FROM calendar WHERE row_no = ?1" }
        Query::ShortDays => { "SELECT row_no, day, close, name FROM short_day ORDER BY row_no" }
        Query::ShortDayRow => { "SELECT row_no, day, close, name FROM short_day WHERE row_no = ?1" }
        Query::LastCase => {
            "SELECT number, label, caption, filed FROM cases ORDER BY number DESC LIMIT 1"
        }
        Query::CaseLabelled => {
            "SELECT number, label, caption, filed FROM cases WHERE label = ?1"
        }
        Query::CaseNumbered => {
            "SELECT number, label, caption, filed FROM cases WHERE number = ?1"
        }
        Query::LastParty => {
            "SELECT case_no, number, name, role FROM party WHERE case_no = ?1 ORDER BY number DESC LIMIT 1"
        }
        Query::Parties => {
            "SELECT case_no, number, name, role FROM party WHERE case_no = ?1 ORDER BY number"
        }
        Query::LastEntry => {
            "SELECT case_no, number, day, body FROM entry WHERE case_no = ?1 ORDER BY number DESC LIMIT 1"
        }
        Query::Entries => {
            "SELECT case_no, number, day, body FROM entry WHERE case_no = ?1 ORDER BY number"
        }
        Query::LastDeadline => {
            "SELECT case_no, number, party, rule, initial FROM deadline WHERE case_no = ?1 ORDER BY number DESC LIMIT 1"
        }
        Query::Deadline => {
            "SELECT case_no, number, party, rule, initial FROM deadline WHERE case_no = ?1 AND number = ?2"
        }
        Query::Deadlines => {
            "SELECT case_no, number, party, rule, initial FROM deadline WHERE case_no = ?1 ORDER BY number"
        }
        Query::Acts => {
            "SELECT case_no, deadline_no, number, kind, p1, p2, p3, p4, p5 FROM act WHERE case_no = ?1 ORDER BY deadline_no, number"
        }
        Query::DeadlineActs => {
            "SELECT case_no, deadline_no, number, kind, p1, p2, p3, p4, p5 FROM act WHERE case_no = ?1 AND deadline_no = ?2 ORDER BY number"
        }
        Query::Due => {
            "SELECT case_no, deadline_no, day, moment FROM due WHERE case_no = ?1 ORDER BY deadline_no"
        }
        Query::Receipt => { "SELECT command_key, body, reply FROM receipt WHERE command_key = ?1" }
        Query::LastLocalRule => {
            "SELECT number, name, days, direction, three, extendable FROM local_rule ORDER BY number DESC LIMIT 1"
        }
        Query::LocalRuleNamed => {
            "SELECT number, name, days, direction, three, extendable FROM local_rule WHERE name = ?1"
        }
        Query::LocalRules => {
            "SELECT number, name, days, direction, three, extendable FROM local_rule ORDER BY number"
        }
    }
}
