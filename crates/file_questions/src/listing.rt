//! The cases of the docket of a database, a line for each. Nothing is changed.
ghost use Rattle.std.specs.Prelude.{◌≡◌, ◌↔◌, ◌≤◌, [], ◌∷◌, None, Some, IfErr, IfOk, IsTrue, filter, option_copied};
ghost use Rattle.std.specs.List.{list_any};
ghost use Rattle.std.specs.Str.Iter.{HasSubslice};
ghost use Rattle.sqlite.specs.Held.{state};
ghost use Rattle.sqlite.specs.View.{doubt};
ghost use Rattle.docket_history.specs.Histories.{History};
ghost use Rattle.docket_tables.specs.Layouts.{Rows};
ghost use Rattle.docket_tables.specs.Stands.{HoldsRows};
ghost use Rattle.docket_applying.specs.AnyRows.{Preserves, PreservesCalendar};
ghost use Rattle.docket_applying.specs.Applying.{Asks, Stands};
ghost use Rattle.docket_questions.specs.Searches.{holds};
ghost use Rattle.file_questions.specs.CaseLists.{GoesOut, IsEarlyWrite, Lists, cases_told, cases_wanted, has_party};

use crate::inquiry::Inquiry;
use docket_history::{CaseRow, PartyRow};
use docket_store::{CalendarEnd, Docket, Fault, Holdings};
use docket_text::case_list_line;
use line_io::write_bytes;
use sqlite::Alter;
use std::alloc::Global;
use std::io::Write;

/// How many cases a docket may have.
const MAX_CASES: u32 = 100_000;

/// Which cases are listed.
#[derive(Clone, Copy)]
pub struct Wanted<'a> {
    /// The label that a case has; any where none is given.
    pub label: Option<&'a str>,
    /// A part of the name of one of its parties; any where none is given.
    pub party: Option<&'a str>,
}

/// Whether the text contains the part.
fn holds(text: &str, part: &str) -> bool
    ensures value { result ≡ holds part.now text.now }
    ensures means { IsTrue result ↔ HasSubslice text.now part.now }
{
    text.contains(part)
}

/// Whether the name of one of the parties holds the part.
fn is_among(parties: &[PartyRow], part: &str) -> bool
    ensures { result ≡ list_any (λ party. holds part.now party.name) parties.now }
{
    parties.iter().any(|party| holds(party.name.as_str(), part))
}

/// Whether the case of a number has a party whose name holds the part, if one is given.
fn has_party<S: Alter>(
    docket: &mut Docket<S>,
    part: Option<&str>,
    number: u32,
) -> Result<bool, Fault>
    ensures answer { (h : History) → Stands S.Store docket.old h
        → Asks S.Store docket.new h (λ has. has ≡ has_party h (option_copied part.entry) number) result }
    ensures stays { (rows : Rows) → HoldsRows S.Store docket.old.conn rows → Preserves S.Store docket.new.conn rows result }
    ensures clean { doubt (state S.Store docket.old.conn).is_clean ≤ doubt (state S.Store docket.new.conn).is_clean }
{
    let Some(part) = part else {
        return Ok(true);
    };
    let parties = docket.parties(number)?;
    Ok(is_among(parties.as_slice(), part))
}

/// Writes the line of a case. Counts it.
fn write_line<W: Write>(alloc: Global, row: &CaseRow, writer: &mut W) -> Result<u32, CalendarEnd>
    ensures out { GoesOut (row.now ∷ []) (W.contents writer.old) (W.contents writer.new) result }
    ensures end { IfErr result IsEarlyWrite }
{
    let Ok(line) = case_list_line(alloc, row) else {
        return Err(CalendarEnd::Store(Fault::NoMemory));
    };
    match write_bytes(writer, line.as_bytes()) {
        Ok(()) => Ok(1),
        Err(_) => Err(CalendarEnd::WriteFailed),
    }
}

/// Writes the line of a case, if it has such a party. Counts it.
fn list_one<S: Alter, W: Write>(
    alloc: Global,
    docket: &mut Docket<S>,
    part: Option<&str>,
    row: &CaseRow,
    writer: &mut W,
) -> Result<u32, CalendarEnd>
    ensures lists { (h : History) → Stands S.Store docket.old h
        → Lists S.Store docket.new h (filter (λ case. has_party h (option_copied part.entry) case.number) (row.now ∷ []))
        (W.contents writer.old) (W.contents writer.new) result }
    ensures stays { (rows : Rows) → HoldsRows S.Store docket.old.conn rows → PreservesCalendar S.Store docket.new.conn rows result }
    ensures clean { doubt (state S.Store docket.old.conn).is_clean ≤ doubt (state S.Store docket.new.conn).is_clean }
    ensures few { IfOk result (λ lines. lines ≤ 1) }
{
    match has_party(docket, part, row.number) {
        Ok(true) => write_line(alloc, row, writer),
        Ok(false) => Ok(0),
        Err(fault) => Err(CalendarEnd::Store(fault)),
    }
}

/// Writes the line of the case of a label, if there is one and it has such a party. Counts it.
fn list_labelled<S: Alter, W: Write>(
    alloc: Global,
    docket: &mut Docket<S>,
    label: &str,
    part: Option<&str>,
    writer: &mut W,
) -> Result<u32, CalendarEnd>
    ensures lists { (h : History) → Stands S.Store docket.old h
        → Lists S.Store docket.new h (cases_told h (Some label.now) (option_copied part.entry))
        (W.contents writer.old) (W.contents writer.new) result }
    ensures stays { (rows : Rows) → HoldsRows S.Store docket.old.conn rows → PreservesCalendar S.Store docket.new.conn rows result }
    ensures clean { doubt (state S.Store docket.old.conn).is_clean ≤ doubt (state S.Store docket.new.conn).is_clean }
{
    match docket.case_labelled(label) {
        Ok(Some(row)) => list_one(alloc, docket, part, &row, writer),
        Ok(None) => Ok(0),
        Err(fault) => Err(CalendarEnd::Store(fault)),
    }
}

/// Writes the line of each case that has such a party, and counts them. Each is written before the next
/// case is read.
fn list_all<S: Alter, W: Write>(
    alloc: Global,
    docket: &mut Docket<S>,
    part: Option<&str>,
    writer: &mut W,
) -> Result<u32, CalendarEnd>
    ensures lists { (h : History) → Stands S.Store docket.old h
        → Lists S.Store docket.new h (cases_told h None (option_copied part.entry))
        (W.contents writer.old) (W.contents writer.new) result }
    ensures stays { (rows : Rows) → HoldsRows S.Store docket.old.conn rows → PreservesCalendar S.Store docket.new.conn rows result }
    ensures clean { doubt (state S.Store docket.old.conn).is_clean ≤ doubt (state S.Store docket.new.conn).is_clean }
{
    let mut lines = 0;
    'cases: for before in 0..MAX_CASES {
        let row = match docket.case_row(before + 1) {
            Ok(Some(row)) => row,
            Ok(None) => return Ok(lines),
            Err(fault) => return Err(CalendarEnd::Store(fault)),
        };
        match list_one(alloc, docket, part, &row, writer) {
            Ok(more) => lines += more,
            Err(end) => return Err(end),
        }
    }
    Ok(lines)
}

/// Writes the line of each case that is wanted, and counts them.
fn list_cases<S: Alter, W: Write>(
    alloc: Global,
    docket: &mut Docket<S>,
    wanted: &Wanted<'_>,
    writer: &mut W,
) -> Result<u32, CalendarEnd>
    ensures lists { (h : History) → Stands S.Store docket.old h
        → Lists S.Store docket.new h (cases_wanted wanted.now h) (W.contents writer.old) (W.contents writer.new) result }
    ensures stays { (rows : Rows) → HoldsRows S.Store docket.old.conn rows → PreservesCalendar S.Store docket.new.conn rows result }
    ensures clean { doubt (state S.Store docket.old.conn).is_clean ≤ doubt (state S.Store docket.new.conn).is_clean }
{
    match wanted.label {
        Some(label) => list_labelled(alloc, docket, label, wanted.party, writer),
        None => list_all(alloc, docket, wanted.party, writer),
    }
}

impl<W: Write> Inquiry<W> for Wanted<'_> {
    ghost use Rattle.file_questions.specs.CaseLists.{ListsCases, cases_wanted};

    type Answer = Result<u32, CalendarEnd>;

    ghost Tells = { λ wanted _ h before after. ListsCases (cases_wanted wanted h) (W.contents before) (W.contents after) };

    fn ask<S: Alter>(
        &self,
        alloc: Global,
        docket: &mut Docket<S>,
        _held: Holdings,
        out: &mut W,
    ) -> Result<u32, CalendarEnd> {
        list_cases(alloc, docket, self, out)
    }
}
