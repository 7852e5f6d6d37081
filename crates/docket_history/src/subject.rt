//! What an action is about: what it names, what it does to the court calendar, and what it asks about.
ghost use Rattle.std.specs.Prelude.{◌≡◌, None, map, option_copied};
ghost use Rattle.std.specs.Option.{option_map};
ghost use Rattle.docket_history.specs.Actions.{case_named, deadline_named, imported, local_rule_named, row_entered, rows_imported, subject_of};

use crate::item::CalendarItem;
use court_days::DayKind;
use docket_command::{Action, NewDay, Text};

/// What an action asks about.
#[derive(Clone, Copy)]
pub struct Asks {
    /// The calendar: what the action enters may be there already, it is judged by the end of a
    /// time, or it moves an end.
    pub calendar: bool,
    /// The number of the next calendar row: it may add some.
    pub next_row: bool,
    /// How many cases there are: it opens one, or may move ends of any.
    pub cases: bool,
    /// How many parties its case has: it adds one, or may name some.
    pub parties: bool,
    /// How many entries its case has: it files one.
    pub entries: bool,
    /// How many deadlines its case has: it may make some.
    pub deadlines: bool,
    /// How many local rules there are: it enters one.
    pub local_rules: bool,
}

/// What an action names, what it does to the court calendar, and what it asks about.
#[derive(Clone, Copy)]
pub struct Subject {
    pub case: Option<u32>,
    pub deadline: Option<u32>,
    /// It enters or withdraws rows of the calendar.
    pub changes_calendar: bool,
    /// It enters or withdraws days or spans, by which ends of any case may move. A short day moves none.
    pub moves_all_cases: bool,
    pub asks: Asks,
}

const NOTHING: Asks = Asks {
    calendar: false,
    next_row: false,
    cases: false,
    parties: false,
    entries: false,
    deadlines: false,
    local_rules: false,
};

const NONE: Subject = Subject {
    case: None,
    deadline: None,
    changes_calendar: false,
    moves_all_cases: false,
    asks: NOTHING,
};

/// Days or spans are entered in the calendar.
const DAYS: Subject = Subject {
    changes_calendar: true,
    moves_all_cases: true,
    asks: Asks {
        calendar: true,
        next_row: true,
        cases: true,
        ..NOTHING
    },
    ..NONE
};

/// A short day is entered, which moves no end.
const SHORT_DAY: Subject = Subject {
    changes_calendar: true,
    asks: Asks {
        calendar: true,
        next_row: true,
        ..NOTHING
    },
    ..NONE
};

/// A calendar row is withdrawn.
const WITHDRAWAL: Subject = Subject {
    changes_calendar: true,
    moves_all_cases: true,
    asks: Asks {
        cases: true,
        ..NOTHING
    },
    ..NONE
};

const CASE: Subject = Subject {
    asks: Asks {
        cases: true,
        ..NOTHING
    },
    ..NONE
};

const PARTY: Subject = Subject {
    asks: Asks {
        parties: true,
        ..NOTHING
    },
    ..NONE
};

const ENTRY: Subject = Subject {
    asks: Asks {
        entries: true,
        ..NOTHING
    },
    ..NONE
};

/// Deadlines are made, of every party.
const DEADLINES: Subject = Subject {
    asks: Asks {
        calendar: true,
        deadlines: true,
        ..NOTHING
    },
    ..NONE
};

/// Deadlines are made, of parties that may be named.
const DEADLINES_OF_PARTIES: Subject = Subject {
    asks: Asks {
        calendar: true,
        parties: true,
        deadlines: true,
        ..NOTHING
    },
    ..NONE
};

/// The deadline that is named gets an act.
const ACT: Subject = Subject {
    asks: Asks {
        calendar: true,
        ..NOTHING
    },
    ..NONE
};

const LOCAL_RULE: Subject = Subject {
    asks: Asks {
        local_rules: true,
        ..NOTHING
    },
    ..NONE
};

impl Subject {
    /// What an action is about.
    pub fn of(action: &Action) -> Subject
        ensures { result ≡ subject_of action.now }
    {
        let (case, deadline) = case_and_deadline(action);
        Subject {
            case,
            deadline,
            ..Subject::of_kind(action)
        }
    }

    /// What actions of its kind are about, but for what each names.
    fn of_kind(action: &Action) -> Subject
        ensures { result ≡ record (subject_of action.now) { case = None; deadline = None } }
    {
        match action {
            Action::DeclareDay(_)
            | Action::CloseDay(_)
            | Action::CloseSpan(_)
            | Action::ImportCalendar(_) => DAYS,
            Action::ShortDay(_) => SHORT_DAY,
            Action::WithdrawCalendar(_) => WITHDRAWAL,
            Action::OpenCase(_) => CASE,
            Action::LocalRule(_) => LOCAL_RULE,
            Action::AddParty(_) => PARTY,
            Action::FileEntry(_) => ENTRY,
            Action::EnterJudgment(_) => DEADLINES,
            // By a ruling the court may order a statement, which is a deadline of the party that is named.
            Action::ServeSummons(_)
            | Action::FileWaiver(_)
            | Action::ServePleading(_)
            | Action::OrderReply(_)
            | Action::NoticeHearing(_)
            | Action::OrderPeriod(_)
            | Action::LocalPeriod(_)
            | Action::Dispose(_) => DEADLINES_OF_PARTIES,
            Action::RuleMotion(_)
            | Action::StatementServed(_)
            | Action::Extend(_)
            | Action::Satisfy(_)
            | Action::Vacate(_) => ACT,
        }
    }
}

/// The case that it names, and the deadline.
fn case_and_deadline(action: &Action) -> (Option<u32>, Option<u32>)
    ensures case { result.0 ≡ case_named action.now }
    ensures deadline { result.1 ≡ deadline_named action.now }
{
    match action {
        Action::DeclareDay(_)
        | Action::CloseDay(_)
        | Action::CloseSpan(_)
        | Action::ShortDay(_)
        | Action::ImportCalendar(_)
        | Action::WithdrawCalendar(_)
        | Action::OpenCase(_)
        | Action::LocalRule(_) => (None, None),
        Action::AddParty(a) => (Some(a.case), None),
        Action::FileEntry(a) => (Some(a.case), None),
        Action::ServeSummons(a) => (Some(a.case), None),
        Action::FileWaiver(a) => (Some(a.case), None),
        Action::ServePleading(a) => (Some(a.case), None),
        Action::OrderReply(a) => (Some(a.case), None),
        Action::NoticeHearing(a) => (Some(a.case), None),
        Action::OrderPeriod(a) => (Some(a.case), None),
        Action::LocalPeriod(a) => (Some(a.case), None),
        Action::EnterJudgment(a) => (Some(a.case), None),
        Action::Dispose(a) => (Some(a.case), Some(a.deadline)),
        Action::RuleMotion(a) => (Some(a.case), Some(a.deadline)),
        Action::StatementServed(a) => (Some(a.case), Some(a.deadline)),
        Action::Extend(a) => (Some(a.case), Some(a.deadline)),
        Action::Satisfy(a) => (Some(a.case), Some(a.deadline)),
        Action::Vacate(a) => (Some(a.case), Some(a.deadline)),
    }
}

/// The name of the local rule that it enters, or by which it sets a time.
pub(crate) fn local_rule_named(action: &Action) -> Option<&Text>
    ensures { option_copied result ≡ local_rule_named action.now }
{
    match action {
        Action::LocalRule(a) => Some(&a.name),
        Action::LocalPeriod(a) => Some(&a.rule),
        _ => None,
    }
}

/// The one row that it enters in the calendar, if that must not be there already: the item and its
/// name.
pub fn row_entered(action: &Action) -> Option<(CalendarItem, &str)>
    ensures { option_map (λ row. record { item = row.0; name = row.1.now }) result ≡ row_entered action.now }
{
    match action {
        Action::DeclareDay(a) => {
            let kind = DayKind::from(a.kind);
            Some((CalendarItem::Day(kind, a.day), a.name.as_str()))
        }
        Action::CloseDay(a) => {
            Some((CalendarItem::Day(DayKind::Closed, a.day), a.name.as_str()))
        }
        Action::CloseSpan(a) => Some((CalendarItem::Span(a.start, a.end), "")),
        Action::ShortDay(a) => Some((CalendarItem::Short(a.day, a.close), a.name.as_str())),
        _ => None,
    }
}

/// The days that it imports in the calendar; those that are there already are not entered again.
pub(crate) fn days_imported(action: &Action) -> &[NewDay]
    ensures { map imported result.now ≡ rows_imported action.now }
{
    match action {
        Action::ImportCalendar(a) => a.rows.as_slice(),
        _ => &[],
    }
}
