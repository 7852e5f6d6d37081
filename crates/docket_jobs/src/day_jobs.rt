//! The jobs of the command lines that name days. They print the deadlines of a range of days, in lines or in
//! a format of other programs, and the holidays of a year or of a range of days.
ghost use Rattle.std.specs.Prelude.{◌≡◌, ℕ, IfOk, MatchResult, None, Some, option_map};
ghost use Rattle.clap.specs.Matches.{found_of};
ghost use Rattle.clap.specs.Walk.{rows_of};
ghost use Rattle.docket_jobs.specs.Jobs.{Asked, IsLimited, asked, calendar_asked, days_asked, due_of, export_asked, form_of, holidays_asked, sheet_if, to_export, to_tell_calendar, to_tell_court_calendar, to_tell_holidays, year_of};

use crate::job::Job;
use crate::number::{read_number, read_year};
use crate::value::{BAD_NUMBER, BadValue, flag, value, value_if_any};
use civil_time::{Day, read_day};
use clap::ArgMatches;
use due_exports::Form;
use html_sheets::Due;

const BAD_DAY: &str = "FROM and TO are days from 1980-01-01 to 3999-12-31, as 2027-04-19";

const BAD_RANGE: &str = "FROM is after TO";

const BAD_DUE: &str =
    "FROM and TO are needed, or one of --today, --week and --overdue without them";

const BAD_FORM: &str = "--as FORM is ics, html, csv or json";

const BAD_SHEET: &str = "--case goes with --as html alone, and without it go FROM and TO";

const BAD_YEAR: &str = "YEAR is a year from 2000 to 2099";

const BAD_DAYS: &str = "YEAR goes alone, and --db with FROM and TO";

/// The days that the texts name, the second not before the first.
fn days<'a>(from: &str, to: &str) -> Result<(Day, Day), BadValue<'a>>
    ensures { (ask : ℕ → ℕ → Asked) → MatchResult result (λ days. days_asked ask from.now to.now ≡ Some (ask days.0 days.1))
        (λ _. days_asked ask from.now to.now ≡ None) }
{
    let from = read_day(from.as_bytes()).ok_or(BadValue::Told(BAD_DAY))?;
    let to = read_day(to.as_bytes()).ok_or(BadValue::Told(BAD_DAY))?;
    if to < from {
        return Err(BadValue::Told(BAD_RANGE));
    }
    Ok((from, to))
}

fn days_job<'a>(file: &'a str, from: &str, to: &str, long: bool) -> Result<Job<'a>, BadValue<'a>>
    ensures limited { IfOk result IsLimited }
    ensures job { MatchResult result (λ job. days_asked (λ from to. to_tell_calendar file.now from to long) from.now to.now ≡ Some (asked job))
        (λ _. days_asked (λ from to. to_tell_calendar file.now from to long) from.now to.now ≡ None) }
{
    let (from, to) = days(from, to)?;
    Ok(Job::Calendar {
        file,
        from,
        to,
        long,
    })
}

/// The days of a flag, if one is given.
fn read_due<'a>(today: bool, week: bool, overdue: bool) -> Result<Option<Due>, BadValue<'a>>
    ensures { MatchResult result (λ due. due_of today week overdue ≡ Some due) (λ _. due_of today week overdue ≡ None) }
{
    match (today, week, overdue) {
        (false, false, false) => Ok(None),
        (true, false, false) => Ok(Some(Due::Today)),
        (false, true, false) => Ok(Some(Due::Week)),
        (false, false, true) => Ok(Some(Due::Overdue)),
        _ => Err(BadValue::Told(BAD_DUE)),
    }
}

/// Two days are given, or a flag.
pub(crate) fn calendar_job<'a>(found: &ArgMatches<'a>) -> Result<Job<'a>, BadValue<'a>>
    ensures limited { IfOk result IsLimited }
    ensures job { MatchResult result (λ job. calendar_asked (rows_of (found_of found.now)) ≡ Some (asked job))
        (λ _. calendar_asked (rows_of (found_of found.now)) ≡ None) }
{
    let file = value(found, "db");
    let long = flag(found, "long");
    let week = flag(found, "week");
    let due = read_due(flag(found, "today"), week, flag(found, "overdue"))?;
    let places = (value_if_any(found, "from"), value_if_any(found, "to"));
    match (due, places.0, places.1) {
        (None, Some(from), Some(to)) => days_job(file, from, to, long),
        (Some(due), None, None) => Ok(Job::CalendarOf { file, due, long }),
        _ => Err(BadValue::Told(BAD_DUE)),
    }
}

/// The format that the word names.
fn read_form(name: &str) -> Option<Form>
    ensures { result ≡ form_of name.now }
{
    match name {
        "ics" => Some(Form::Calendar),
        "html" => Some(Form::Html),
        "csv" => Some(Form::Csv),
        "json" => Some(Form::Json),
        _ => None,
    }
}

/// A docket sheet is a page.
fn sheet_job<'a>(file: &'a str, case: &str, form: Form) -> Result<Job<'a>, BadValue<'a>>
    ensures limited { IfOk result IsLimited }
    ensures job { MatchResult result (λ job. sheet_if file.now case.now form ≡ Some (asked job))
        (λ _. sheet_if file.now case.now form ≡ None) }
{
    match form {
        Form::Html => {
            let number = read_number(case).ok_or(BadValue::Told(BAD_NUMBER))?;
            Ok(Job::Sheet { file, number })
        }
        _ => Err(BadValue::Told(BAD_SHEET)),
    }
}

fn range_job<'a>(file: &'a str, from: &str, to: &str, form: Form) -> Result<Job<'a>, BadValue<'a>>
    ensures limited { IfOk result IsLimited }
    ensures job { MatchResult result (λ job. days_asked (λ from to. to_export file.now from to form) from.now to.now ≡ Some (asked job))
        (λ _. days_asked (λ from to. to_export file.now from to form) from.now to.now ≡ None) }
{
    let (from, to) = days(from, to)?;
    Ok(Job::Export {
        file,
        from,
        to,
        form,
    })
}

/// A case is given alone; otherwise two days are given.
pub(crate) fn export_job<'a>(found: &ArgMatches<'a>) -> Result<Job<'a>, BadValue<'a>>
    ensures limited { IfOk result IsLimited }
    ensures job { MatchResult result (λ job. export_asked (rows_of (found_of found.now)) ≡ Some (asked job))
        (λ _. export_asked (rows_of (found_of found.now)) ≡ None) }
{
    let file = value(found, "db");
    let form = read_form(value(found, "as")).ok_or(BadValue::Told(BAD_FORM))?;
    let places = (value_if_any(found, "from"), value_if_any(found, "to"));
    match (value_if_any(found, "case"), places.0, places.1) {
        (Some(case), None, None) => sheet_job(file, case, form),
        (None, Some(from), Some(to)) => range_job(file, from, to, form),
        _ => Err(BadValue::Told(BAD_SHEET)),
    }
}

fn year_job<'a>(year: &str) -> Result<Job<'a>, BadValue<'a>>
    ensures limited { IfOk result IsLimited }
    ensures job { MatchResult result (λ job. option_map to_tell_holidays (year_of year.now) ≡ Some (asked job))
        (λ _. option_map to_tell_holidays (year_of year.now) ≡ None) }
{
    let year = read_year(year).ok_or(BadValue::Told(BAD_YEAR))?;
    Ok(Job::Holidays { year })
}

fn court_calendar_job<'a>(file: &'a str, from: &str, to: &str) -> Result<Job<'a>, BadValue<'a>>
    ensures limited { IfOk result IsLimited }
    ensures job { MatchResult result (λ job. days_asked (to_tell_court_calendar file.now) from.now to.now ≡ Some (asked job))
        (λ _. days_asked (to_tell_court_calendar file.now) from.now to.now ≡ None) }
{
    let (from, to) = days(from, to)?;
    Ok(Job::CourtCalendar { file, from, to })
}

/// A year is given alone, and a file with two days.
pub(crate) fn holidays_job<'a>(found: &ArgMatches<'a>) -> Result<Job<'a>, BadValue<'a>>
    ensures limited { IfOk result IsLimited }
    ensures job { MatchResult result (λ job. holidays_asked (rows_of (found_of found.now)) ≡ Some (asked job))
        (λ _. holidays_asked (rows_of (found_of found.now)) ≡ None) }
{
    let first = value(found, "year");
    match (value_if_any(found, "db"), value_if_any(found, "to")) {
        (None, None) => year_job(first),
        (Some(file), Some(to)) => court_calendar_job(file, first, to),
        _ => Err(BadValue::Told(BAD_DAYS)),
    }
}
