//! What a docket's tables show about a command.
ghost use Rattle.std.specs.Prelude.{◌≡◌, [], length, false, ◌&&◌, nat_le, IfOk};
ghost use Rattle.std.specs.Option.{option_and_then, option_map};
ghost use Rattle.sqlite.specs.Held.{state};
ghost use Rattle.sqlite.specs.State.{HasCleanDisk};
ghost use Rattle.docket_command.specs.declared.refusal.Reply.{Reply};
ghost use Rattle.docket_history.specs.Actions.{case_named, if_asked, subject_of};
ghost use Rattle.docket_history.specs.Histories.{parties_of_case, entries_of_case, deadlines_of_case, deadlines_from, items_of, local_rule_in};
ghost use Rattle.docket_decisions.specs.Outcomes.{is_label_taken, is_row_standing};
ghost use Rattle.docket_decisions.specs.Tables.{case_in, case_deadlines, deadlines_in, view_in};
ghost use Rattle.docket_history.specs.Views.{deadline_at, is_served_among, named_in, rule_name_asked};
ghost use Rattle.docket_history.specs.declared.view.Kept.TheVariants.{Same};
ghost use Rattle.docket_wire.specs.Valid.{IsCommand};
ghost use Rattle.docket_wire.specs.Writing.{canonical};
ghost use Rattle.docket_tables.specs.Asking.{OnlyAsks};
ghost use Rattle.docket_tables.specs.AnyRows.{HasReceipt};
ghost use Rattle.docket_tables.specs.Layouts.{Rows};
ghost use Rattle.docket_tables.specs.Readings.{Reads};
ghost use Rattle.docket_tables.specs.Stands.{HoldsRows};
ghost use Rattle.docket_applying.specs.Viewing.{numbers_in};

use crate::gathering::{items_of, with_acts};
use docket_command::{Action, Command, LocalRule};
use docket_history::{
    Acts, Asks, CalendarItem, CaseView, DeadlineView, StandingCalendar, Subject, View,
    is_served_among, rule_name_asked,
};
use docket_tables::{
    ReadFault, acts_of_case, acts_of_deadline, calendar, cases, count_deadlines, count_entries,
    count_local_rules, count_parties, court, deadline, deadlines, is_label_taken, is_row_standing,
    local_rule, under_key,
};
use sqlite::{Alter, Connection};
use std::alloc::Global;

/// How many cases there are, if the action needs it.
fn cases_if_asked<S: Alter>(conn: &mut Connection<S>, asked: bool) -> Result<u32, ReadFault>
    ensures read { Reads S.Store conn.old conn.new result (λ _ t found. found ≡ if_asked asked (length t.cases)) }
    ensures only { OnlyAsks S.Store conn.old conn.new result }
{
    if !asked {
        return Ok(0);
    }
    cases(conn)
}

/// The number of the next calendar row, if the action needs it.
fn next_row_if_asked<S: Alter>(
    conn: &mut Connection<S>,
    alloc: Global,
    asked: bool,
) -> Result<u64, ReadFault>
    ensures read { Reads S.Store conn.old conn.new result (λ _ t found. found ≡ if_asked asked t.next_row) }
    ensures only { OnlyAsks S.Store conn.old conn.new result }
{
    if !asked {
        return Ok(0);
    }
    Ok(court(conn, alloc)?.next_row)
}

/// Whether the label of the case that the action opens is in use.
fn is_asked_label_taken<S: Alter>(
    conn: &mut Connection<S>,
    action: &Action,
) -> Result<bool, ReadFault>
    ensures read { Reads S.Store conn.old conn.new result (λ _ t found. found ≡ is_label_taken action.now t.cases) }
    ensures only { OnlyAsks S.Store conn.old conn.new result }
{
    match action {
        Action::OpenCase(a) => is_label_taken(conn, a.label.as_str()),
        _ => Ok(false),
    }
}

fn is_asked_row_standing<S: Alter>(
    conn: &mut Connection<S>,
    action: &Action,
) -> Result<bool, ReadFault>
    ensures read { Reads S.Store conn.old conn.new result (λ _ t found. found ≡ is_row_standing action.now t.calendar) }
    ensures only { OnlyAsks S.Store conn.old conn.new result }
{
    match action {
        Action::WithdrawCalendar(a) => is_row_standing(conn, a.row),
        _ => Ok(false),
    }
}

/// The items of the calendar, in the order of the numbers of their rows.
pub(crate) fn calendar_items<S: Alter>(
    conn: &mut Connection<S>,
    alloc: Global,
) -> Result<Vec<CalendarItem>, ReadFault>
    ensures read { Reads S.Store conn.old conn.new result (λ _ t found. found.items ≡ items_of t.calendar) }
    ensures only { OnlyAsks S.Store conn.old conn.new result }
{
    let rows = calendar(conn, alloc)?;
    Ok(items_of(alloc, rows.as_slice())?)
}

/// The deadlines of a case, each with its acts.
fn deadline_views<S: Alter>(
    conn: &mut Connection<S>,
    alloc: Global,
    case: u32,
) -> Result<Vec<DeadlineView>, ReadFault>
    ensures read { Reads S.Store conn.old conn.new result (λ _ t found. found.items ≡ deadlines_from case 1 t.acts (deadlines_of_case case t.deadlines)) }
    ensures only { OnlyAsks S.Store conn.old conn.new result }
{
    let rows = deadlines(conn, alloc, case)?;
    let acts = acts_of_case(conn, alloc, case)?;
    Ok(with_acts(alloc, rows.as_slice(), acts.as_slice())?)
}

fn is_among(number: u32, count: u32) -> bool
    ensures { result ≡ (nat_le 1 number && nat_le number count) }
{
    1 <= number && number <= count
}

/// The deadline of a number, from 1, of a case, with its acts.
pub(crate) fn deadline_view<S: Alter>(
    conn: &mut Connection<S>,
    alloc: Global,
    case: u32,
    number: u32,
) -> Result<Option<DeadlineView>, ReadFault>
    ensures read { Reads S.Store conn.old conn.new result (λ _ t found. found ≡ deadline_at (deadlines_in t case) number) }
    ensures only { OnlyAsks S.Store conn.old conn.new result }
{
    let Some(row) = deadline(conn, alloc, case, number)? else {
        return Ok(None);
    };
    let acts = acts_of_deadline(conn, alloc, case, number)?;
    Ok(Some(DeadlineView {
        party: row.party,
        rule: row.rule,
        initial: row.initial,
        acts: Acts::new(acts),
    }))
}

/// The deadline that the action names, in a case.
fn deadline_asked<S: Alter>(
    conn: &mut Connection<S>,
    alloc: Global,
    case: u32,
    named: Option<u32>,
) -> Result<Option<DeadlineView>, ReadFault>
    ensures read { Reads S.Store conn.old conn.new result (λ _ t found. found ≡ option_and_then (deadline_at (deadlines_in t case)) named) }
    ensures only { OnlyAsks S.Store conn.old conn.new result }
{
    match named {
        Some(number) => deadline_view(conn, alloc, case, number),
        None => Ok(None),
    }
}

/// How many parties a case has, if the action needs it.
fn parties_if_asked<S: Alter>(
    conn: &mut Connection<S>,
    case: u32,
    asked: bool,
) -> Result<u32, ReadFault>
    ensures read { Reads S.Store conn.old conn.new result (λ _ t found. found ≡ if_asked asked (length (parties_of_case case t.parties))) }
    ensures only { OnlyAsks S.Store conn.old conn.new result }
{
    if !asked {
        return Ok(0);
    }
    count_parties(conn, case)
}

/// How many entries a case has, if the action needs it.
fn entries_if_asked<S: Alter>(
    conn: &mut Connection<S>,
    case: u32,
    asked: bool,
) -> Result<u32, ReadFault>
    ensures read { Reads S.Store conn.old conn.new result (λ _ t found. found ≡ if_asked asked (length (entries_of_case case t.entries))) }
    ensures only { OnlyAsks S.Store conn.old conn.new result }
{
    if !asked {
        return Ok(0);
    }
    count_entries(conn, case)
}

/// How many deadlines a case has, if the action needs it.
fn deadlines_if_asked<S: Alter>(
    conn: &mut Connection<S>,
    case: u32,
    asked: bool,
) -> Result<u32, ReadFault>
    ensures read { Reads S.Store conn.old conn.new result (λ _ t found. found ≡ if_asked asked (length (deadlines_of_case case t.deadlines))) }
    ensures only { OnlyAsks S.Store conn.old conn.new result }
{
    if !asked {
        return Ok(0);
    }
    count_deadlines(conn, case)
}

/// Whether the party that an action serves with a summons, or whose waiver it files, has an initial deadline
/// that is not vacated. No other action reads a deadline for this.
fn is_served<S: Alter>(
    conn: &mut Connection<S>,
    alloc: Global,
    case: u32,
    action: &Action,
) -> Result<bool, ReadFault>
    ensures read { Reads S.Store conn.old conn.new result (λ _ t found. found ≡ is_served_among (deadlines_in t case) action.now) }
    ensures only { OnlyAsks S.Store conn.old conn.new result }
{
    match action {
        Action::ServeSummons(_) | Action::FileWaiver(_) => {}
        _ => return Ok(false),
    }
    let deadlines = deadline_views(conn, alloc, case)?;
    Ok(is_served_among(deadlines.as_slice(), action))
}

/// The case of a number, if there is one, as it is shown about an action.
fn case_view<S: Alter>(
    conn: &mut Connection<S>,
    alloc: Global,
    number: u32,
    subject: Subject,
    action: &Action,
) -> Result<Option<CaseView>, ReadFault>
    requires { subject ≡ subject_of action.now }
    ensures read { Reads S.Store conn.old conn.new result (λ _ t found. found ≡ case_in t action.now number) }
    ensures only { OnlyAsks S.Store conn.old conn.new result }
{
    let count = cases(conn)?;
    if !is_among(number, count) {
        return Ok(None);
    }
    let asks = subject.asks;
    let parties = parties_if_asked(conn, number, asks.parties)?;
    let entries = entries_if_asked(conn, number, asks.entries)?;
    let deadlines = deadlines_if_asked(conn, number, asks.deadlines)?;
    let named = deadline_asked(conn, alloc, number, subject.deadline)?;
    let is_served = is_served(conn, alloc, number, action)?;
    Ok(Some(CaseView {
        number,
        parties,
        entries,
        deadlines,
        named,
        is_served,
    }))
}

fn case_asked<S: Alter>(
    conn: &mut Connection<S>,
    alloc: Global,
    subject: Subject,
    action: &Action,
) -> Result<Option<CaseView>, ReadFault>
    requires { subject ≡ subject_of action.now }
    ensures read { Reads S.Store conn.old conn.new result (λ _ t found. found ≡ option_and_then (case_in t action.now) (case_named action.now)) }
    ensures only { OnlyAsks S.Store conn.old conn.new result }
{
    match subject.case {
        Some(number) => case_view(conn, alloc, number, subject, action),
        None => Ok(None),
    }
}

/// The local rule that an action needs, by the view of the case that it names.
fn local_rule_asked<S: Alter>(
    conn: &mut Connection<S>,
    alloc: Global,
    case: &Option<CaseView>,
    action: &Action,
) -> Result<Option<LocalRule>, ReadFault>
    ensures read { Reads S.Store conn.old conn.new result (λ _ t found. found ≡ option_and_then (local_rule_in t.local_rules) (rule_name_asked (named_in case.now) action.now)) }
    ensures only { OnlyAsks S.Store conn.old conn.new result }
{
    match rule_name_asked(case, action) {
        Some(name) => local_rule(conn, alloc, name.as_str()),
        None => Ok(None),
    }
}

/// How many local rules there are, if the action needs it.
fn local_rules_if_asked<S: Alter>(conn: &mut Connection<S>, asked: bool) -> Result<u32, ReadFault>
    ensures read { Reads S.Store conn.old conn.new result (λ _ t found. found ≡ if_asked asked (length t.local_rules)) }
    ensures only { OnlyAsks S.Store conn.old conn.new result }
{
    if !asked {
        return Ok(0);
    }
    count_local_rules(conn)
}

/// The deadlines of the case of a number, if there is one, each with its acts.
pub(crate) fn case_deadlines<S: Alter>(
    conn: &mut Connection<S>,
    alloc: Global,
    number: u32,
) -> Result<Option<Vec<DeadlineView>>, ReadFault>
    ensures read { Reads S.Store conn.old conn.new result (λ _ t found. option_map (λ deadlines. deadlines.items) found ≡ case_deadlines t number) }
    ensures only { OnlyAsks S.Store conn.old conn.new result }
{
    let count = cases(conn)?;
    if !is_among(number, count) {
        return Ok(None);
    }
    Ok(Some(deadline_views(conn, alloc, number)?))
}

/// The numbers and truth values that a view has, beside those of its case.
#[derive(Clone, Copy)]
struct NumbersShown {
    cases: u32,
    label_taken: bool,
    row_stands: bool,
    next_row: u64,
    local_rules: u32,
}

fn numbers_shown<S: Alter>(
    conn: &mut Connection<S>,
    alloc: Global,
    asks: Asks,
    action: &Action,
) -> Result<NumbersShown, ReadFault>
    requires { asks ≡ (subject_of action.now).asks }
    ensures read { Reads S.Store conn.old conn.new result (λ _ t found. found ≡ numbers_in t action.now) }
    ensures only { OnlyAsks S.Store conn.old conn.new result }
{
    let cases = cases_if_asked(conn, asks.cases)?;
    let label_taken = is_asked_label_taken(conn, action)?;
    let row_stands = is_asked_row_standing(conn, action)?;
    let next_row = next_row_if_asked(conn, alloc, asks.next_row)?;
    let local_rules = local_rules_if_asked(conn, asks.local_rules)?;
    Ok(NumbersShown {
        cases,
        label_taken,
        row_stands,
        next_row,
        local_rules,
    })
}

/// What a docket's tables show about a command, with no calendar yet. `body` is the canonical text of the
/// command.
pub(crate) fn view<S: Alter>(
    conn: &mut Connection<S>,
    alloc: Global,
    command: &Command,
    subject: Subject,
    body: &str,
) -> Result<View, ReadFault>
    requires about { subject ≡ subject_of command.now.action }
    requires body { body.now ≡ canonical command.now }
    requires lawful { IsCommand command.now }
    ensures read { Reads S.Store conn.old conn.new result (λ _ t found. found ≡ record (view_in t command.now) { calendar = [] }) }
    ensures kept { (rows : Rows) → HoldsRows S.Store conn.old rows → HasCleanDisk (state S.Store conn.new)
        → IfOk result (λ view. (reply : Reply) → view.under_key ≡ Same reply → HasReceipt command.now reply rows) }
    ensures only { OnlyAsks S.Store conn.old conn.new result }
{
    let action = &command.action;
    let under_key = under_key(conn, command, body)?;
    let numbers = numbers_shown(conn, alloc, subject.asks, action)?;
    let case = case_asked(conn, alloc, subject, action)?;
    let local = local_rule_asked(conn, alloc, &case, action)?;
    Ok(View {
        under_key,
        cases: numbers.cases,
        label_taken: numbers.label_taken,
        case,
        row_stands: numbers.row_stands,
        calendar: StandingCalendar::empty(alloc),
        next_row: numbers.next_row,
        local,
        local_rules: numbers.local_rules,
    })
}
