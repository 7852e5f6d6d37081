//! Questions to the docket. A question writes nothing; if the database fails under it, the docket is closed.
ghost use Rattle.std.specs.Prelude.{◌≡◌, ◌↔◌, ◌≤◌, Option, Some, None, true, false, Ok, Err, length, IfOk, IfSome, IsErrAnd, is_some};
ghost use Rattle.std.specs.Option.{option_map};
ghost use Rattle.sqlite.specs.Held.{state};
ghost use Rattle.sqlite.specs.State.{HasCleanDisk, Survives};
ghost use Rattle.sqlite.specs.View.{doubt};
ghost use Rattle.sqlite.specs.declared.error.Error.{Error as Failure};
ghost use Rattle.court_days.specs.Court.{zone_of};
ghost use Rattle.court_rules.specs.Standings.{AreActs};
ghost use Rattle.docket_applying.specs.Calendar.{calendar_rows as due_rows};
ghost use Rattle.docket_history.specs.Histories.{History, case_rows, local_rule_rows, parties_of_case, party_rows, standing_rows};
ghost use Rattle.docket_history.specs.Records.{case_at, case_labelled, case_record, deadline_lines};
ghost use Rattle.docket_tables.specs.Layouts.{Rows};
ghost use Rattle.docket_tables.specs.Readings.{Fails, Stays};
ghost use Rattle.docket_tables.specs.Stands.{HoldsRows};
ghost use Rattle.docket_tables.specs.declared.fault.ReadFault.{ReadFault as Unread};
ghost use Rattle.docket_tables.specs.declared.fault.ReadFault.TheVariants.{Store};
ghost use Rattle.docket_applying.specs.AnyRows.{Preserves, PreservesCalendar, PreservesListing};
ghost use Rattle.docket_applying.specs.Applying.{Asks, FailsAs, Judges, Stands};
ghost use Rattle.docket_applying.specs.Causes.{IsClosedForCause};
ghost use Rattle.docket_applying.specs.Grounds.{AreGrounds};
ghost use Rattle.docket_applying.specs.Listing.{HasBroken, Lists, ListsCalendar};
ghost use Rattle.docket_applying.specs.declared.fault.Fault.TheVariants as fault;
ghost use Rattle.docket_applying.specs.declared.listing.CalendarEnd.TheVariants as calendar_end;
ghost use Rattle.docket_applying.specs.declared.listing.ListingEnd.TheVariants as listing_end;
ghost use Rattle.docket_store.specs.Asking.{OnlyAnswers};

use crate::docket::Docket;
use court_days::Day;
use docket_applying::{
    CalendarEnd, Fault, Grounds, ListingEnd, breaking_error, case_record, closing_error, decide_on,
    due_days, grounds_of, lines_numbered, list_days, read_fault,
};
use docket_command::Command;
use docket_decisions::Decision;
use docket_history::{
    CalendarRow, CaseRecord, CaseRow, DeadlineLine, DueRow, LocalRuleRow, PartyRow,
};
use docket_tables::{ReadFault, calendar, case, case_labelled, cases, local_rules, parties};
use sqlite::{Alter, Connection, Error};
use std::io::Write;

/// Returns the answer of the tables to a question, or a fault, which closes the docket if the database
/// failed.
fn told<S: Alter, T>(
    conn: &mut Connection<S>,
    closed_by: &mut Option<Error>,
    answer: Result<T, ReadFault>,
) -> Result<T, Fault>
    requires idle { conn.old.in_transaction ≡ false }
    requires serves { closed_by.old ≡ None }
    ensures idle { conn.new.in_transaction ≡ false }
    ensures writes_nothing { Survives (state S.Store conn.old) (state S.Store conn.new) (λ _. ⊥) }
    ensures ok { (found : T) → answer ≡ Ok found → (result ≡ Ok found) × (conn.new ≡ conn.old) × (closed_by.new ≡ None) }
    ensures left { (why : Unread) (rows next : Rows) → answer ≡ Err why → Fails S.Store conn.old rows why → IsErrAnd result (FailsAs S.Store conn.new rows next) }
    ensures stays { (rows : Rows) → Stays S.Store conn.old rows answer → Preserves S.Store conn.new rows result }
    ensures closes { (is_some closed_by.new ≡ true) ↔ (result ≡ Err fault.StoreFailed) }
    ensures blames { result ≡ Err fault.StoreFailed → (e : Failure) × (answer ≡ Err (Store e)) × (closed_by.new ≡ Some e) }
{
    match answer {
        Ok(found) => Ok(found),
        Err(why) => {
            let mut failure = None;
            let answer = Err(read_fault(conn, why, &mut failure));
            *closed_by = closing_error(&answer, failure);
            answer
        }
    }
}

impl<S: Alter> Docket<S> {
    /// The case of a number, with its parties and its entries.
    pub fn case(&mut self, number: u32) -> Result<Option<CaseRecord>, Fault>
        ensures answer { (h : History) → Stands S.Store self.old h
            → Asks S.Store self.new h (λ found. found ≡ case_record h number) result }
        ensures only { OnlyAnswers S.Store self.old self.new result }
    {
        if self.closed_by.is_some() {
            return Err(Fault::Closed);
        }
        let found = case_record(&mut self.conn, self.alloc, number);
        told(&mut self.conn, &mut self.closed_by, found)
    }

    /// The deadlines of the case of a number, and where each stands by the calendar of the docket.
    pub fn deadlines(&mut self, number: u32) -> Result<Option<Vec<DeadlineLine>>, Fault>
        ensures answer { (h : History) → Stands S.Store self.old h
            → Asks S.Store self.new h (λ found. option_map (λ lines. lines.items) found ≡ deadline_lines self.old.court h number) result }
        ensures only { OnlyAnswers S.Store self.old self.new result }
    {
        if self.closed_by.is_some() {
            return Err(Fault::Closed);
        }
        let conn = &mut self.conn;
        let kept = &mut self.calendar;
        let mut failure = None;
        let answer = lines_numbered(conn, self.alloc, &self.court, kept, number, &mut failure);
        self.closed_by = closing_error(&answer, failure);
        answer
    }

    /// Returns what decides where the deadline of a number, from 1, of a case stands: its rule, its acts, and
    /// the calendar of the docket. A docket can have these acts.
    pub fn grounds(&mut self, case: u32, deadline: u32) -> Result<Option<Grounds>, Fault>
        ensures answer { (h : History) → Stands S.Store self.old h
            → Asks S.Store self.new h (AreGrounds h case deadline) result }
        ensures acts { IfOk result (λ found. IfSome found (λ grounds. AreActs (zone_of self.old.court) grounds.deadline.acts)) }
        ensures only { OnlyAnswers S.Store self.old self.new result }
    {
        if self.closed_by.is_some() {
            return Err(Fault::Closed);
        }
        let conn = &mut self.conn;
        let kept = &mut self.calendar;
        let court = &self.court;
        let mut failure = None;
        let answer = grounds_of(conn, self.alloc, court, kept, case, deadline, &mut failure);
        self.closed_by = closing_error(&answer, failure);
        answer
    }

    /// The court's local rules, in the order in which they were entered.
    pub fn local_rules(&mut self) -> Result<Vec<LocalRuleRow>, Fault>
        ensures answer { (h : History) → Stands S.Store self.old h
            → Asks S.Store self.new h (λ found. found.items ≡ local_rule_rows h) result }
        ensures only { OnlyAnswers S.Store self.old self.new result }
    {
        if self.closed_by.is_some() {
            return Err(Fault::Closed);
        }
        let found = local_rules(&mut self.conn, self.alloc);
        told(&mut self.conn, &mut self.closed_by, found)
    }

    /// What would be done with a command: whether it is accepted, with which changes. Nothing is done.
    pub fn decision(&mut self, command: &Command) -> Result<Decision, Fault>
        ensures answer { (h : History) → Stands S.Store self.old h → Judges S.Store self.new h command.now result }
        ensures only { OnlyAnswers S.Store self.old self.new result }
    {
        if self.closed_by.is_some() {
            return Err(Fault::Closed);
        }
        let conn = &mut self.conn;
        let kept = &mut self.calendar;
        let mut failure = None;
        let answer = decide_on(conn, self.alloc, &self.court, kept, command, &mut failure);
        self.closed_by = closing_error(&answer, failure);
        answer
    }

    /// How many cases the docket has. They are numbered from 1.
    pub fn count_cases(&mut self) -> Result<u32, Fault>
        ensures answer { (h : History) → Stands S.Store self.old h
            → Asks S.Store self.new h (λ found. found ≡ length (case_rows h)) result }
        ensures only { OnlyAnswers S.Store self.old self.new result }
    {
        if self.closed_by.is_some() {
            return Err(Fault::Closed);
        }
        let found = cases(&mut self.conn);
        told(&mut self.conn, &mut self.closed_by, found)
    }

    /// The case of a number, without its parties and entries.
    pub fn case_row(&mut self, number: u32) -> Result<Option<CaseRow>, Fault>
        ensures answer { (h : History) → Stands S.Store self.old h
            → Asks S.Store self.new h (λ found. found ≡ case_at (case_rows h) number) result }
        ensures only { OnlyAnswers S.Store self.old self.new result }
    {
        if self.closed_by.is_some() {
            return Err(Fault::Closed);
        }
        let found = case(&mut self.conn, self.alloc, number);
        told(&mut self.conn, &mut self.closed_by, found)
    }

    /// The case that has the label, without its parties and entries.
    pub fn case_labelled(&mut self, label: &str) -> Result<Option<CaseRow>, Fault>
        ensures answer { (h : History) → Stands S.Store self.old h
            → Asks S.Store self.new h (λ found. found ≡ case_labelled (case_rows h) label.now) result }
        ensures only { OnlyAnswers S.Store self.old self.new result }
    {
        if self.closed_by.is_some() {
            return Err(Fault::Closed);
        }
        let found = case_labelled(&mut self.conn, self.alloc, label);
        told(&mut self.conn, &mut self.closed_by, found)
    }

    /// The parties of a case, in the order of their numbers.
    pub fn parties(&mut self, case: u32) -> Result<Vec<PartyRow>, Fault>
        ensures answer { (h : History) → Stands S.Store self.old h
            → Asks S.Store self.new h (λ found. found.items ≡ parties_of_case case (party_rows h)) result }
        ensures only { OnlyAnswers S.Store self.old self.new result }
    {
        if self.closed_by.is_some() {
            return Err(Fault::Closed);
        }
        let found = parties(&mut self.conn, self.alloc, case);
        told(&mut self.conn, &mut self.closed_by, found)
    }

    /// The rows of the court calendar, in the order of their numbers.
    pub fn calendar_rows(&mut self) -> Result<Vec<CalendarRow>, Fault>
        ensures answer { (h : History) → Stands S.Store self.old h
            → Asks S.Store self.new h (λ found. found.items ≡ standing_rows h) result }
        ensures only { OnlyAnswers S.Store self.old self.new result }
    {
        if self.closed_by.is_some() {
            return Err(Fault::Closed);
        }
        let found = calendar(&mut self.conn, self.alloc);
        told(&mut self.conn, &mut self.closed_by, found)
    }

    /// The deadlines of the docket whose time runs to a day from one to another, both included, in the order
    /// of the calendar. All of them are in memory at once.
    pub fn due_rows(&mut self, from: Day, to: Day) -> Result<Vec<DueRow>, Fault>
        ensures answer { (h : History) → Stands S.Store self.old h
            → Asks S.Store self.new h (λ found. found.items ≡ due_rows self.old.court h from to) result }
        ensures only { OnlyAnswers S.Store self.old self.new result }
    {
        if self.closed_by.is_some() {
            return Err(Fault::Closed);
        }
        let conn = &mut self.conn;
        let kept = &mut self.calendar;
        let mut failure = None;
        let answer = due_days(conn, self.alloc, &self.court, kept, from, to, &mut failure);
        self.closed_by = closing_error(&answer, failure);
        answer
    }

    /// Writes the bytes, then the calendar of the days from one to another, both included: the deadlines of
    /// the docket whose time runs to one of these days, in order. Returns how many lines it wrote. It writes
    /// each line before it reads the next row, so its memory does not grow with them. The bytes go out with
    /// the first line; if there is not even a first line, nothing does. The docket stays as it is.
    pub fn calendar_after<W: Write>(
        &mut self,
        front: &[u8],
        from: Day,
        to: Day,
        writer: &mut W,
    ) -> Result<u32, ListingEnd>
        ensures court { self.new.court ≡ self.old.court }
        ensures answer { (h : History) → Stands S.Store self.old h
            → Lists S.Store self.new h from to front.now (W.contents writer.old) (W.contents writer.new) result }
        ensures closed { self.old.closed ≡ true
            → (result ≡ Err (listing_end.NotBegun fault.Closed)) × (self.new ≡ self.old) × (writer.new ≡ writer.old) }
        // For any docket, no row changes.
        ensures stays { (rows : Rows) → HoldsRows S.Store self.old.conn rows → PreservesListing S.Store self.new.conn rows result }
        // And every database that a power failure may leave was one before.
        ensures writes_nothing { Survives (state S.Store self.old.conn) (state S.Store self.new.conn) (λ _. ⊥) }
        ensures clean { doubt (state S.Store self.old.conn).is_clean ≤ doubt (state S.Store self.new.conn).is_clean }
        ensures closes { self.old.closed ≡ false → (self.new.closed ≡ true) ↔ HasBroken result }
        // The database fails only for a cause.
        ensures cause { (rows : Rows) → HoldsRows S.Store self.old.conn rows → HasCleanDisk (state S.Store self.new.conn)
            → HasBroken result → IsClosedForCause S.Store self.old self.new }
    {
        if self.closed_by.is_some() {
            return Err(ListingEnd::NotBegun(Fault::Closed));
        }
        let mut failure = None;
        let conn = &mut self.conn;
        let kept = &mut self.calendar;
        let court = &self.court;
        let error = &mut failure;
        let answer = list_days(
            conn, self.alloc, court, kept, from, to, front, writer, error,
        );
        self.closed_by = breaking_error(&answer, failure);
        answer
    }

    /// Writes the calendar of the days from one to another, both included, and returns how many lines it
    /// wrote, as `calendar_after` does with no bytes in front of it.
    pub fn calendar<W: Write>(
        &mut self,
        from: Day,
        to: Day,
        writer: &mut W,
    ) -> Result<u32, CalendarEnd>
        ensures court { self.new.court ≡ self.old.court }
        ensures answer { (h : History) → Stands S.Store self.old h
            → ListsCalendar S.Store self.new h from to (W.contents writer.old) (W.contents writer.new) result }
        ensures closed { self.old.closed ≡ true
            → (result ≡ Err (calendar_end.Store fault.Closed)) × (self.new ≡ self.old) × (writer.new ≡ writer.old) }
        // For any docket, no row changes.
        ensures stays { (rows : Rows) → HoldsRows S.Store self.old.conn rows → PreservesCalendar S.Store self.new.conn rows result }
        // And every database that a power failure may leave was one before.
        ensures writes_nothing { Survives (state S.Store self.old.conn) (state S.Store self.new.conn) (λ _. ⊥) }
        ensures clean { doubt (state S.Store self.old.conn).is_clean ≤ doubt (state S.Store self.new.conn).is_clean }
        ensures closes { self.old.closed ≡ false
            → (self.new.closed ≡ true) ↔ (result ≡ Err (calendar_end.Store fault.StoreFailed)) }
        // The database fails only for a cause.
        ensures cause { (rows : Rows) → HoldsRows S.Store self.old.conn rows → HasCleanDisk (state S.Store self.new.conn)
            → result ≡ Err (calendar_end.Store fault.StoreFailed) → IsClosedForCause S.Store self.old self.new }
    {
        match self.calendar_after(&[], from, to, writer) {
            Ok(lines) => Ok(lines),
            Err(ListingEnd::NotBegun(fault)) => Err(CalendarEnd::Store(fault)),
            Err(ListingEnd::Broken(fault)) => Err(CalendarEnd::Store(fault)),
            Err(ListingEnd::WriteFailed) => Err(CalendarEnd::WriteFailed),
        }
    }
}
