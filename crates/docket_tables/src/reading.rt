//! Questions to a docket's tables.
ghost use Rattle.std.specs.Prelude.{◌≡◌, ◌==◌, length, Ok};
ghost use Rattle.std.specs.List.{list_any};
ghost use Rattle.std.specs.Str.{bytes_eq};
ghost use Rattle.sqlite.specs.Held.{state};
ghost use Rattle.sqlite.specs.State.{HasCleanDisk};
ghost use Rattle.docket_command.specs.declared.refusal.Reply.{Reply};
ghost use Rattle.docket_decisions.specs.EndRows.{end_rows};
ghost use Rattle.docket_history.specs.Histories.{parties_of_case, entries_of_case, deadlines_of_case, acts_of_deadline, local_rule_in};
ghost use Rattle.docket_decisions.specs.Outcomes.{under_key};
ghost use Rattle.docket_history.specs.Records.{case_at, case_labelled};
ghost use Rattle.docket_history.specs.declared.view.Kept.TheVariants.{Same};
ghost use Rattle.docket_wire.specs.Valid.{IsCommand};
ghost use Rattle.docket_wire.specs.Writing.{canonical};
ghost use Rattle.docket_tables.specs.Asking.{OnlyAsks};
ghost use Rattle.docket_tables.specs.AnyRows.{HasReceipt};
ghost use Rattle.docket_tables.specs.Contents.{ends_of};
ghost use Rattle.docket_tables.specs.Layouts.{Rows};
ghost use Rattle.docket_tables.specs.Readings.{AreActsOf, Reads, row_at};
ghost use Rattle.docket_tables.specs.Stands.{HoldsRows};

use crate::fault::ReadFault;
use crate::query::Query;
use crate::rows::{
    acts_alone_in, all_in, calendar_in, court_in, first_in, kept_in, local_rule_in, number_in,
};
use crate::store::ask;
use court_rules::Act;
use docket_columns::CourtRow;
use docket_command::{Command, LocalRule};
use docket_decisions::StoredEnd;
use docket_history::{
    ActRow, CalendarRow, CaseRow, DeadlineRow, EntryRow, Kept, LocalRuleRow, PartyRow,
};
use sqlite::types::ToSql;
use sqlite::{Alter, Connection};
use std::alloc::Global;

/// The court, with the number of the next calendar row.
pub fn court<S: Alter>(conn: &mut Connection<S>, alloc: Global) -> Result<CourtRow, ReadFault>
    ensures read { Reads S.Store conn.old conn.new result (λ court t found. found ≡ record { zone = court.zone_text; close = court.close_minute; next_row = t.next_row }) }
    ensures only { OnlyAsks S.Store conn.old conn.new result }
{
    let rows = ask(conn, Query::Court, &[])?;
    court_in(alloc, rows.as_slice())
}

/// The rows of the calendar, in the order of their numbers.
pub fn calendar<S: Alter>(
    conn: &mut Connection<S>,
    alloc: Global,
) -> Result<Vec<CalendarRow>, ReadFault>
    ensures read { Reads S.Store conn.old conn.new result (λ _ t found. found.items ≡ t.calendar) }
    ensures only { OnlyAsks S.Store conn.old conn.new result }
{
    let rows = ask(conn, Query::Calendar, &[])?;
    let short_rows = ask(conn, Query::ShortDays, &[])?;
    calendar_in(alloc, rows.as_slice(), short_rows.as_slice())
}

/// Whether the calendar row of a number stands.
pub fn is_row_standing<S: Alter>(conn: &mut Connection<S>, number: u32) -> Result<bool, ReadFault>
    ensures read { Reads S.Store conn.old conn.new result (λ _ t found. found ≡ list_any (λ row. row.number == number) t.calendar) }
    ensures only { OnlyAsks S.Store conn.old conn.new result }
{
    let rows = ask(conn, Query::CalendarRow, &[number.to_sql()])?;
    if rows.as_slice().len() > 0 {
        return Ok(true);
    }
    let short_rows = ask(conn, Query::ShortDayRow, &[number.to_sql()])?;
    Ok(short_rows.as_slice().len() > 0)
}

/// How many cases there are.
pub fn cases<S: Alter>(conn: &mut Connection<S>) -> Result<u32, ReadFault>
    ensures read { Reads S.Store conn.old conn.new result (λ _ t found. found ≡ length t.cases) }
    ensures only { OnlyAsks S.Store conn.old conn.new result }
{
    let rows = ask(conn, Query::LastCase, &[])?;
    number_in(rows.as_slice(), 0)
}

/// Whether a case has the label.
pub fn is_label_taken<S: Alter>(conn: &mut Connection<S>, label: &str) -> Result<bool, ReadFault>
    ensures read { Reads S.Store conn.old conn.new result (λ _ t found. found ≡ list_any (λ row. bytes_eq row.label label.now) t.cases) }
    ensures only { OnlyAsks S.Store conn.old conn.new result }
{
    let rows = ask(conn, Query::CaseLabelled, &[label.to_sql()])?;
    Ok(rows.as_slice().len() > 0)
}

/// The case of a number.
pub fn case<S: Alter>(
    conn: &mut Connection<S>,
    alloc: Global,
    number: u32,
) -> Result<Option<CaseRow>, ReadFault>
    ensures read { Reads S.Store conn.old conn.new result (λ _ t found. found ≡ case_at t.cases number) }
    ensures only { OnlyAsks S.Store conn.old conn.new result }
{
    let rows = ask(conn, Query::CaseNumbered, &[number.to_sql()])?;
    first_in(alloc, rows.as_slice())
}

/// The case that has the label.
pub fn case_labelled<S: Alter>(
    conn: &mut Connection<S>,
    alloc: Global,
    label: &str,
) -> Result<Option<CaseRow>, ReadFault>
    ensures read { Reads S.Store conn.old conn.new result (λ _ t found. found ≡ case_labelled t.cases label.now) }
    ensures only { OnlyAsks S.Store conn.old conn.new result }
{
    let rows = ask(conn, Query::CaseLabelled, &[label.to_sql()])?;
    first_in(alloc, rows.as_slice())
}

/// How many parties a case has.
pub fn count_parties<S: Alter>(conn: &mut Connection<S>, case: u32) -> Result<u32, ReadFault>
    ensures read { Reads S.Store conn.old conn.new result (λ _ t found. found ≡ length (parties_of_case case t.parties)) }
    ensures only { OnlyAsks S.Store conn.old conn.new result }
{
    let rows = ask(conn, Query::LastParty, &[case.to_sql()])?;
    number_in(rows.as_slice(), 1)
}

/// The parties of a case, in the order of their numbers.
pub fn parties<S: Alter>(
    conn: &mut Connection<S>,
    alloc: Global,
    case: u32,
) -> Result<Vec<PartyRow>, ReadFault>
    ensures read { Reads S.Store conn.old conn.new result (λ _ t found. found.items ≡ parties_of_case case t.parties) }
    ensures only { OnlyAsks S.Store conn.old conn.new result }
{
    let rows = ask(conn, Query::Parties, &[case.to_sql()])?;
    all_in(alloc, rows.as_slice())
}

/// How many entries a case has.
pub fn count_entries<S: Alter>(conn: &mut Connection<S>, case: u32) -> Result<u32, ReadFault>
    ensures read { Reads S.Store conn.old conn.new result (λ _ t found. found ≡ length (entries_of_case case t.entries)) }
    ensures only { OnlyAsks S.Store conn.old conn.new result }
{
    let rows = ask(conn, Query::LastEntry, &[case.to_sql()])?;
    number_in(rows.as_slice(), 1)
}

/// The entries of a case, in the order of their numbers.
pub fn entries<S: Alter>(
    conn: &mut Connection<S>,
    alloc: Global,
    case: u32,
) -> Result<Vec<EntryRow>, ReadFault>
    ensures read { Reads S.Store conn.old conn.new result (λ _ t found. found.items ≡ entries_of_case case t.entries) }
    ensures only { OnlyAsks S.Store conn.old conn.new result }
{
    let rows = ask(conn, Query::Entries, &[case.to_sql()])?;
    all_in(alloc, rows.as_slice())
}

/// How many deadlines a case has.
pub fn count_deadlines<S: Alter>(conn: &mut Connection<S>, case: u32) -> Result<u32, ReadFault>
    ensures read { Reads S.Store conn.old conn.new result (λ _ t found. found ≡ length (deadlines_of_case case t.deadlines)) }
    ensures only { OnlyAsks S.Store conn.old conn.new result }
{
    let rows = ask(conn, Query::LastDeadline, &[case.to_sql()])?;
    number_in(rows.as_slice(), 1)
}

/// The deadline of a case and a number.
pub fn deadline<S: Alter>(
    conn: &mut Connection<S>,
    alloc: Global,
    case: u32,
    number: u32,
) -> Result<Option<DeadlineRow>, ReadFault>
    ensures read { Reads S.Store conn.old conn.new result (λ _ t found. found ≡ row_at (deadlines_of_case case t.deadlines) number) }
    ensures only { OnlyAsks S.Store conn.old conn.new result }
{
    let rows = ask(conn, Query::Deadline, &[case.to_sql(), number.to_sql()])?;
    first_in(alloc, rows.as_slice())
}

/// The acts of a deadline of a case, in the order of their numbers.
pub fn acts_of_deadline<S: Alter>(
    conn: &mut Connection<S>,
    alloc: Global,
    case: u32,
    deadline: u32,
) -> Result<Vec<Act>, ReadFault>
    ensures read { Reads S.Store conn.old conn.new result (λ _ t found. found.items ≡ acts_of_deadline case deadline t.acts) }
    ensures only { OnlyAsks S.Store conn.old conn.new result }
{
    let rows = ask(
        conn,
        Query::DeadlineActs,
        &[case.to_sql(), deadline.to_sql()],
    )?;
    acts_alone_in(alloc, rows.as_slice())
}

/// The deadlines of a case, in the order of their numbers.
pub fn deadlines<S: Alter>(
    conn: &mut Connection<S>,
    alloc: Global,
    case: u32,
) -> Result<Vec<DeadlineRow>, ReadFault>
    ensures read { Reads S.Store conn.old conn.new result (λ _ t found. found.items ≡ deadlines_of_case case t.deadlines) }
    ensures only { OnlyAsks S.Store conn.old conn.new result }
{
    let rows = ask(conn, Query::Deadlines, &[case.to_sql()])?;
    all_in(alloc, rows.as_slice())
}

/// The acts of a case: those of each deadline in the order of their numbers.
pub fn acts_of_case<S: Alter>(
    conn: &mut Connection<S>,
    alloc: Global,
    case: u32,
) -> Result<Vec<ActRow>, ReadFault>
    ensures read { Reads S.Store conn.old conn.new result (λ _ t found. AreActsOf case t.acts found.items) }
    ensures only { OnlyAsks S.Store conn.old conn.new result }
{
    let rows = ask(conn, Query::Acts, &[case.to_sql()])?;
    all_in(alloc, rows.as_slice())
}

/// The ends of the deadlines of a case whose time runs, in the order of the deadlines.
pub fn ends_of_case<S: Alter>(
    conn: &mut Connection<S>,
    alloc: Global,
    case: u32,
) -> Result<Vec<StoredEnd>, ReadFault>
    ensures read { Reads S.Store conn.old conn.new result (λ court t found. found.items ≡ ends_of case (end_rows court t)) }
    ensures only { OnlyAsks S.Store conn.old conn.new result }
{
    let rows = ask(conn, Query::Due, &[case.to_sql()])?;
    all_in(alloc, rows.as_slice())
}

/// How many local rules there are.
pub fn count_local_rules<S: Alter>(conn: &mut Connection<S>) -> Result<u32, ReadFault>
    ensures read { Reads S.Store conn.old conn.new result (λ _ t found. found ≡ length t.local_rules) }
    ensures only { OnlyAsks S.Store conn.old conn.new result }
{
    let rows = ask(conn, Query::LastLocalRule, &[])?;
    number_in(rows.as_slice(), 0)
}

/// The local rule of a name.
pub fn local_rule<S: Alter>(
    conn: &mut Connection<S>,
    alloc: Global,
    name: &str,
) -> Result<Option<LocalRule>, ReadFault>
    ensures read { Reads S.Store conn.old conn.new result (λ _ t found. found ≡ local_rule_in t.local_rules name.now) }
    ensures only { OnlyAsks S.Store conn.old conn.new result }
{
    let rows = ask(conn, Query::LocalRuleNamed, &[name.to_sql()])?;
    local_rule_in(alloc, rows.as_slice())
}

/// The local rules, in the order of their numbers.
pub fn local_rules<S: Alter>(
    conn: &mut Connection<S>,
    alloc: Global,
) -> Result<Vec<LocalRuleRow>, ReadFault>
    ensures read { Reads S.Store conn.old conn.new result (λ _ t found. found.items ≡ t.local_rules) }
    ensures only { OnlyAsks S.Store conn.old conn.new result }
{
    let rows = ask(conn, Query::LocalRules, &[])?;
    all_in(alloc, rows.as_slice())
}

/// Returns what stands under a command's key. `body` is the canonical text of the command.
pub fn under_key<S: Alter>(
    conn: &mut Connection<S>,
    command: &Command,
    body: &str,
) -> Result<Kept, ReadFault>
    requires body { body.now ≡ canonical command.now }
    requires lawful { IsCommand command.now }
    ensures read { Reads S.Store conn.old conn.new result (λ _ t found. found ≡ under_key t.receipts command.now) }
    ensures found { (rows : Rows) → HoldsRows S.Store conn.old rows → HasCleanDisk (state S.Store conn.new) → (reply : Reply) → result ≡ Ok (Same reply) → HasReceipt command.now reply rows }
    ensures only { OnlyAsks S.Store conn.old conn.new result }
{
    let rows = ask(conn, Query::Receipt, &[command.key.as_str().to_sql()])?;
    kept_in(rows.as_slice(), body)
}
