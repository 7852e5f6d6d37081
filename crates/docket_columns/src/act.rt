//! Rows of the table of acts.
ghost use Rattle.std.specs.Prelude.{◌≡◌, pos, Some, IfSome};
ghost use Rattle.sqlite.specs.Values.{bound};
ghost use Rattle.court_rules.specs.declared.act.Act.{Act as Done};
ghost use Rattle.court_rules.specs.declared.act.Act.TheVariants as act;
ghost use Rattle.court_rules.specs.declared.act.Start.{Start as Begun};
ghost use Rattle.court_rules.specs.declared.table.Period.{Period as Span};
ghost use Rattle.docket_history.specs.declared.row.ActRow.{ActRow as Line};
ghost use Rattle.docket_columns.specs.Cells.{act_cells};
ghost use Rattle.docket_columns.specs.Codes.{unit_number, unit_count, coded, act_code};
ghost use Rattle.docket_columns.specs.Fits.{IsStart, IsAct, IsActRow};

use crate::cell::{count_at, day_numbered, has_values, number_at};
use crate::codes::{
    direction_number, direction_of, flag_number, flag_of, motion_number, motion_of, way_number,
    way_of,
};
use crate::stored::StoredRow;
use court_days::Day;
use court_rules::{Act, DayPeriod, HourPeriod, Period, Start};
use docket_history::ActRow;
use sqlite::Row;
use sqlite::types::{ToSql, ValueRef};
use std::alloc::{AllocError, Global};

/// The number of the unit of hours.
const HOURS: u32 = 3;

/// The values of the columns kind and p1 to p5.
#[derive(Clone, Copy)]
pub(crate) struct ActCode {
    pub(crate) kind: u32,
    pub(crate) p1: i64,
    pub(crate) p2: u32,
    pub(crate) p3: u32,
    pub(crate) p4: u32,
    pub(crate) p5: u32,
}

fn unit_number(period: Period) -> u32
    ensures { result ≡ unit_number period }
{
    match period {
        Period::Days(_) => 1,
        Period::Months(_) => 2,
    }
}

fn unit_count(period: Period) -> u32
    ensures { result ≡ unit_count period }
{
    match period {
        Period::Days(count) => count,
        Period::Months(count) => count,
    }
}

fn period_of(unit: u32, count: u32) -> Option<Period>
    ensures { (period : Span) → unit ≡ unit_number period → count ≡ unit_count period → result ≡ Some period }
{
    match unit {
        1 => Some(Period::Days(count)),
        2 => Some(Period::Months(count)),
        _ => None,
    }
}

fn start_code(start: Start) -> ActCode
    ensures { result ≡ act_code (act.Start start) }
{
    match start {
        Start::Days(days) => ActCode {
            kind: 1,
            p1: i64::from(days.trigger.epoch_day()),
            p2: unit_number(days.period),
            p3: unit_count(days.period),
            p4: direction_number(days.direction),
            p5: flag_number(days.three_days),
        },
        Start::Hours(hours) => ActCode {
            kind: 1,
            p1: hours.at,
            p2: HOURS,
            p3: hours.hours,
            p4: direction_number(hours.direction),
            p5: 0,
        },
    }
}

/// An act of that kind with these two columns, the others 0.
fn short_code(kind: u32, p1: i64, p2: u32) -> ActCode
    ensures { result ≡ coded kind p1 p2 0 0 0 }
{
    ActCode {
        kind,
        p1,
        p2,
        p3: 0,
        p4: 0,
        p5: 0,
    }
}

/// The same of a day.
fn day_code(kind: u32, day: Day, p2: u32) -> ActCode
    ensures { result ≡ coded kind (pos day) p2 0 0 0 }
{
    short_code(kind, i64::from(day.epoch_day()), p2)
}

fn act_code(act: Act) -> ActCode
    ensures { result ≡ act_code act }
{
    match act {
        Act::Start(start) => start_code(start),
        Act::Fixed(day) => day_code(2, day, 0),
        Act::ExtendBy(days) => short_code(3, i64::from(days), 0),
        Act::ExtendTo(day) => day_code(4, day, 0),
        Act::Motion(served, kind) => day_code(5, served, motion_number(kind)),
        Act::Resume(day, three) => day_code(6, day, flag_number(three)),
        Act::AwaitStatement(notice) => day_code(7, notice, 0),
        Act::Done(at, way) => short_code(8, at, way_number(way)),
        Act::Vacated => short_code(9, 0, 0),
    }
}

fn start_of(code: ActCode) -> Option<Start>
    ensures reads { (start : Begun) → IsStart start → code ≡ act_code (act.Start start) → result ≡ Some start }
    ensures fits { IfSome result IsStart }
{
    let direction = direction_of(code.p4)?;
    if code.p2 == HOURS {
        return Some(Start::Hours(HourPeriod {
            at: code.p1,
            hours: code.p3,
            direction,
        }));
    }
    Some(Start::Days(DayPeriod {
        trigger: day_numbered(code.p1)?,
        period: period_of(code.p2, code.p3)?,
        direction,
        three_days: flag_of(code.p5)?,
    }))
}

fn act_coded(code: ActCode) -> Option<Act>
    ensures reads { (done : Done) → IsAct done → code ≡ act_code done → result ≡ Some done }
    ensures fits { IfSome result IsAct }
{
    match code.kind {
        1 => Some(Act::Start(start_of(code)?)),
        2 => Some(Act::Fixed(day_numbered(code.p1)?)),
        3 => Some(Act::ExtendBy(u32::try_from(code.p1).ok()?)),
        4 => Some(Act::ExtendTo(day_numbered(code.p1)?)),
        5 => Some(Act::Motion(day_numbered(code.p1)?, motion_of(code.p2)?)),
        6 => Some(Act::Resume(day_numbered(code.p1)?, flag_of(code.p2)?)),
        7 => Some(Act::AwaitStatement(day_numbered(code.p1)?)),
        8 => Some(Act::Done(code.p1, way_of(code.p2)?)),
        9 => Some(Act::Vacated),
        _ => None,
    }
}

/// The columns of an act: case_no, deadline_no, number, kind, p1 to p5.
pub fn act_values(row: &ActRow) -> [ValueRef<'static>; 9]
    ensures { bound result ≡ act_cells row.now }
{
    let code = act_code(row.act);
    [
        row.case.to_sql(),
        row.deadline.to_sql(),
        row.number.to_sql(),
        code.kind.to_sql(),
        code.p1.to_sql(),
        code.p2.to_sql(),
        code.p3.to_sql(),
        code.p4.to_sql(),
        code.p5.to_sql(),
    ]
}

/// Reads the columns kind and p1 to p5 of a row.
fn code_at(row: &Row) -> Option<ActCode>
    ensures { (r : Line) → IsActRow r → row.now ≡ act_cells r → result ≡ Some (act_code r.act) }
{
    Some(ActCode {
        kind: count_at(row, 3)?,
        p1: number_at(row, 4)?,
        p2: count_at(row, 5)?,
        p3: count_at(row, 6)?,
        p4: count_at(row, 7)?,
        p5: count_at(row, 8)?,
    })
}

/// Reads the act of a row. `None`: it is not a row of an act.
pub fn act_of(row: &Row) -> Option<ActRow>
    ensures reads { (r : Line) → IsActRow r → row.now ≡ act_cells r → result ≡ Some r }
    ensures sound { IfSome result (λ r. row.now ≡ act_cells r) }
    ensures fits { IfSome result IsActRow }
{
    let found = ActRow {
        case: count_at(row, 0)?,
        deadline: count_at(row, 1)?,
        number: count_at(row, 2)?,
        act: act_coded(code_at(row)?)?,
    };
    if has_values(row, &act_values(&found)) {
        Some(found)
    } else {
        None
    }
}

impl StoredRow for ActRow {
    ghost use Rattle.docket_columns.specs.Cells.{act_cells};
    ghost use Rattle.docket_columns.specs.Fits.{IsActRow};

    ghost cells = { act_cells };

    ghost Is = { IsActRow };

    fn read(_alloc: Global, row: &Row) -> Result<Option<ActRow>, AllocError> {
        Ok(act_of(row))
    }
}
