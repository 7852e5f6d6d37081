//! What is due in a week, or on other days.
ghost use Rattle.std.specs.Prelude.{◌≡◌, IfOk, string_bytes};
ghost use Rattle.html_sheets.specs.Weeks.{week_before, week_after, due_columns, days_head, zone_told, week_head, due_row, named_row};

use crate::due::{FIRST_DAY, LAST_DAY};
use crate::due_list::DueList;
use crate::links::Links;
use crate::piece::{CaseNumber, DeadlineNumber, Told, WeekdayTold};
use crate::rule_words::RuleTold;
use court_days::{Court, Day, End};
use docket_history::DueRow;
use docket_text::{ClockText, DayText, PartyText, shown, shown_minute};
use std::alloc::{AllocError, Global};
use std::fmt;

/// The day seven days earlier, or the first.
#[tactic(auto, unfolding(crate::specs::Weeks::week_before))]
fn week_before(day: Day) -> Day
    ensures { result ≡ week_before day }
{
    let earlier = day.epoch_day() - FIRST_DAY;
    day.minus(earlier.min(7))
}

/// The day seven days later, or the last.
#[tactic(auto, unfolding(crate::specs::Weeks::week_after))]
fn week_after(day: Day) -> Day
    ensures { result ≡ week_after day }
{
    let later = LAST_DAY - day.epoch_day();
    day.plus(later.min(7))
}

/// A link to what is due on some days.
#[derive(Clone, Copy)]
struct DaysLink<'a> {
    from: Day,
    to: Day,
    words: &'a str,
}

impl fmt::Display for DaysLink<'_> {
    ghost use Rattle.std.specs.Prelude.{Some};
    ghost use Rattle.html_sheets.specs.Weeks.{days_link};

    ghost output = { λ link. Some (days_link link.from link.to link.words.now) };

    #[tactic(auto, unfolding(crate::specs::Elements::element))]
    fn fmt<W: fmt::Write>(&self, f: &mut fmt::Formatter<W>) -> fmt::Result {
        let from = DayText(self.from);
        let to = DayText(self.to);
        let words = self.words;
        write!(f, "<a href=\"/pages/calendar/{from}/{to}\">{words}</a>")
    }
}

/// The table of what is due, up to its rows.
#[tactic(auto, unfolding(crate::specs::Weeks::due_columns, crate::specs::Elements::element))]
fn due_columns() -> &'static str
    ensures { result.now ≡ due_columns }
{
    "<table>\n<thead>\n<tr><th scope=\"col\">Day</th><th scope=\"col\">Time</th>\
     <th scope=\"col\">Closing</th><th scope=\"col\">Case</th>\
     <th scope=\"col\">Docket number</th><th scope=\"col\">Deadline</th><th scope=\"col\">Rule</th>\
     <th scope=\"col\">Party</th><th scope=\"col\">Caption</th></tr>\n\
     </thead>\n<tbody>\n"
}

/// What is due from a day to another, up to its rows: the days, and the head of the table.
pub fn due_head(alloc: Global, from: Day, to: Day) -> Result<String, AllocError>
    ensures { IfOk result (λ text. string_bytes text ≡ days_head from to) }
{
    let from = WeekdayTold(from);
    let to = WeekdayTold(to);
    let columns = due_columns();
    format!(in alloc; "<p>{from} to {to}</p>\n{columns}")
}

/// The zone of a court.
#[derive(Clone, Copy)]
struct ZoneTold<'a>(&'a Court);

impl fmt::Display for ZoneTold<'_> {
    ghost use Rattle.std.specs.Prelude.{Some};
    ghost use Rattle.html_sheets.specs.Weeks.{zone_told};

    ghost output = { λ zone. Some (zone_told zone.0.now) };

    #[tactic(auto, unfolding(crate::specs::Elements::element))]
    fn fmt<W: fmt::Write>(&self, f: &mut fmt::Formatter<W>) -> fmt::Result {
        let zone = Told(self.0.zone_text());
        write!(f, "<p>Times are local, in the zone {zone}</p>")
    }
}

/// Links to the days a week before and a week after, where a list has them.
#[derive(Clone, Copy)]
struct WeeksNav {
    shown: bool,
    from: Day,
    to: Day,
}

impl fmt::Display for WeeksNav {
    ghost use Rattle.std.specs.Prelude.{Some};
    ghost use Rattle.html_sheets.specs.Weeks.{weeks_nav};

    ghost output = { λ weeks. Some (weeks_nav weeks.shown weeks.from weeks.to) };

    fn fmt<W: fmt::Write>(&self, f: &mut fmt::Formatter<W>) -> fmt::Result {
        match self.shown {
            true => {
                let before = DaysLink {
                    from: week_before(self.from),
                    to: week_before(self.to),
                    words: "Week before",
                };
                let after = DaysLink {
                    from: week_after(self.from),
                    to: week_after(self.to),
                    words: "Week after",
                };
                write!(
                    f,
                    "<nav aria-label=\"Other weeks\">{before} {after}</nav>\n"
                )
            }
            false => f.write_str(""),
        }
    }
}

/// What is due from a day to another, up to its rows: the days, the zone of the court, links to the days a
/// week before and a week after, where the list has them, and the head of the table.
pub(crate) fn week_head(
    alloc: Global,
    list: DueList,
    court: &Court,
    from: Day,
    to: Day,
) -> Result<String, AllocError>
    ensures { IfOk result (λ text. string_bytes text ≡ week_head list court.now from to) }
{
    let zone = ZoneTold(court);
    let weeks = WeeksNav {
        shown: list.has_weeks(),
        from,
        to,
    };
    let from = WeekdayTold(from);
    let to = WeekdayTold(to);
    let columns = due_columns();
    format!(in alloc; "<p>{from} to {to}</p>\n{zone}\n{weeks}{columns}")
}

/// The cells of an end: its day, its time, and when the clerk's office closes on it.
#[derive(Clone, Copy)]
struct EndCells<'a> {
    court: &'a Court,
    close: u32,
    end: End,
}

impl fmt::Display for EndCells<'_> {
    ghost use Rattle.std.specs.Prelude.{Some};
    ghost use Rattle.html_sheets.specs.Weeks.{end_of_row};

    ghost output = { λ cells. Some (end_of_row cells.court.now cells.close cells.end) };

    fn fmt<W: fmt::Write>(&self, f: &mut fmt::Formatter<W>) -> fmt::Result {
        match self.end {
            End::LastDay(day) => {
                let day = WeekdayTold(day);
                let close = shown_minute(self.close);
                write!(
                    f,
                    "<th scope=\"row\" class=\"number\">{day}</th><td class=\"number\">24:00</td><td class=\"number\">{close}</td>"
                )
            }
            End::Moment(at) => {
                let (day, minute) = self.court.local(shown(at));
                let day = WeekdayTold(day);
                let time = ClockText { minute };
                write!(
                    f,
                    "<th scope=\"row\" class=\"number\">{day}</th><td class=\"number\">{time}</td><td class=\"number\">--:--</td>"
                )
            }
        }
    }
}

/// The cells of a deadline whose time runs, up to that of its party: the day, the time and the closing of its
/// end, the number of its case and its docket number, its number within the case, and its rule. The case and
/// the deadline lead to their pages where there are pages.
#[derive(Clone, Copy)]
struct DueCells<'a> {
    links: Links,
    court: &'a Court,
    due: &'a DueRow,
    label: &'a str,
}

impl fmt::Display for DueCells<'_> {
    ghost use Rattle.std.specs.Prelude.{Some};
    ghost use Rattle.html_sheets.specs.Weeks.{due_cells};

    ghost output = { λ cells. Some (due_cells cells.links cells.court.now cells.due.now cells.label.now) };

    fn fmt<W: fmt::Write>(&self, f: &mut fmt::Formatter<W>) -> fmt::Result {
        let due = self.due;
        let end = EndCells {
            court: self.court,
            close: due.close,
            end: due.end,
        };
        let case = CaseNumber {
            links: self.links,
            number: due.case,
        };
        let number = DeadlineNumber {
            links: self.links,
            case: due.case,
            number: due.number,
        };
        let label = Told(self.label);
        let rule = RuleTold(due.rule.as_str());
        write!(
            f,
            "{end}<td class=\"number\">{case}</td><td class=\"number\">{label}</td><td class=\"number\">{number}</td><td>{rule}</td>"
        )
    }
}

/// Returns the row of a deadline whose time runs: its cells, the number of the party whose time it is, and the
/// caption of its case.
pub fn due_row(
    alloc: Global,
    links: Links,
    court: &Court,
    due: &DueRow,
    label: &str,
    caption: &str,
) -> Result<String, AllocError>
    ensures { IfOk result (λ text. string_bytes text ≡ due_row links court.now due.now label.now caption.now) }
{
    let cells = DueCells {
        links,
        court,
        due,
        label,
    };
    let party = PartyText(due.party);
    let caption = Told(caption);
    format!(in alloc; "<tr>{cells}<td class=\"number\">{party}</td><td>{caption}</td></tr>\n")
}

/// Returns the row of a deadline on a page of the docket, which has the name of its party beside the number.
pub fn named_row(
    alloc: Global,
    court: &Court,
    due: &DueRow,
    label: &str,
    name: &str,
    caption: &str,
) -> Result<String, AllocError>
    ensures { IfOk result (λ text. string_bytes text ≡ named_row court.now due.now label.now name.now caption.now) }
{
    let cells = DueCells {
        links: Links::Pages,
        court,
        due,
        label,
    };
    let party = PartyText(due.party);
    let name = Told(name);
    let caption = Told(caption);
    format!(in alloc; "<tr>{cells}<td>{party} {name}</td><td>{caption}</td></tr>\n")
}
