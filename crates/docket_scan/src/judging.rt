//! Which table of a database is the first that is unsound.
ghost use Rattle.std.specs.Prelude.{◌≡◌, ◌↔◌, ◌+◌, ◌<◌, ◌≤◌, ◌^◌, ℕ, [], List, length, false, IfErr, IfOk, IfSome, IsSome};
ghost use Rattle.sqlite.specs.Held.{Held, state};
ghost use Rattle.sqlite.specs.State.{HasCleanDisk, Survives};
ghost use Rattle.court_days.specs.Court.{CourtSettings, zone_of};
ghost use Rattle.docket_columns.specs.declared.version.Version.{Version};
ghost use Rattle.docket_columns.specs.declared.version.Version.TheVariants.{Second};
ghost use Rattle.docket_history.specs.declared.row.ActRow.{ActRow as OnDeadline};
ghost use Rattle.docket_sound.specs.Acts.{AreSoundActs, HasTakenActs};
ghost use Rattle.docket_sound.specs.Counted.{cases_of, counts_of};
ghost use Rattle.docket_sound.specs.Dues.{dues_of};
ghost use Rattle.docket_sound.specs.Standings.{counts_of_standings, standings_of};
ghost use Rattle.docket_scan.specs.Causes.{IsCausedFault};
ghost use Rattle.docket_scan.specs.Holdings.{holdings_of};
ghost use Rattle.docket_scan.specs.Judging.{IsSoundIn, IsJudged, AreJudged, knows_later_kinds};
ghost use Rattle.docket_scan.specs.Reading.{ActsBefore, EndsBefore, FailsOver, HeldBefore, LastBefore, NamesBefore, ReadBefore};
ghost use Rattle.docket_scan.specs.Records.{IsTable};
ghost use Rattle.docket_scan.specs.Scans.{OfSoMany};
ghost use Rattle.docket_scan.specs.Taken.{IsRead};
ghost use Rattle.docket_tables.specs.declared.table.Table.TheVariants as table;
ghost use Rattle.court_days.specs.Limits.{most_rows};

use crate::check::RecordCheck;
use crate::fault::{AdoptFault, fault_in};
use crate::holdings::Holdings;
use crate::names::read_names;
use crate::reading::{ActsRead, EndsRead, LastRead, TablesRead};
use crate::scan::scan;
use crate::shape::has_table;
use crate::taker::{Records, Taker};
use crate::watch::Watch;
use court_days::Court;
use docket_columns::Version;
use docket_decisions::StoredEnd;
use docket_sound::{
    ActCheck, CalendarCheck, CaseCheck, DeadlineCheck, DueCheck, EntryCheck, KnownTexts,
    LocalRuleCheck, PartyCheck, ReceiptCheck, Standings,
};
use docket_tables::Table;
use sqlite::{Alter, Connection};
use std::alloc::{AllocError, Global};

/// Gives the rows of the table to the taker, if the table is there. Returns how many rows it took.
fn judge_rows<S: Alter, T: Taker, W: Watch>(
    conn: &mut Connection<S>,
    alloc: Global,
    table: Table,
    taker: &mut T,
    watch: &mut W,
) -> Result<u64, AdoptFault>
    ensures writes_nothing { Survives (state S.Store conn.old) (state S.Store conn.new) (λ _. ⊥) }
    ensures mode { conn.old.in_transaction ≡ false → conn.new.in_transaction ≡ false }
    ensures cause { HasCleanDisk (state S.Store conn.new) → IfErr result (IsCausedFault (state S.Store conn.old) (state S.Store conn.new)) }
    ensures context { T.context taker.new ≡ T.context taker.old }
    ensures limit { IfOk result (λ count. count < 2 ^ 64) }
    ensures told { HasCleanDisk (state S.Store conn.new) → T.HasTaken taker.old []
        → IsJudged table (state S.Store conn.old) (state S.Store conn.new)
        (λ count. IsSoundIn table (state S.Store conn.old) (OfSoMany count (T.HasTaken taker.new)))
        (T.IsSound (T.context taker.old)) result }
{
    if !has_table(conn.schema(), table) {
        return Err(AdoptFault::Damaged(table));
    }
    match scan(conn, alloc, table, taker, watch) {
        Ok(Some(count)) => Ok(count),
        Ok(None) => Err(AdoptFault::Damaged(table)),
        Err(error) => Err(fault_in(table, error)),
    }
}

/// Gives the rows of its table to the check, if the table is there. Returns the check then, and how many rows
/// it took.
fn judge_table<S: Alter, C: RecordCheck, W: Watch>(
    conn: &mut Connection<S>,
    alloc: Global,
    table: Table,
    check: C,
    watch: &mut W,
) -> Result<(C, u64), AdoptFault>
    ensures writes_nothing { Survives (state S.Store conn.old) (state S.Store conn.new) (λ _. ⊥) }
    ensures mode { conn.old.in_transaction ≡ false → conn.new.in_transaction ≡ false }
    ensures cause { HasCleanDisk (state S.Store conn.new) → IfErr result (IsCausedFault (state S.Store conn.old) (state S.Store conn.new)) }
    ensures context { IfOk result (λ taken. C.context taken.0 ≡ C.context check) }
    ensures limit { IfOk result (λ taken. taken.1 < 2 ^ 64) }
    ensures told { HasCleanDisk (state S.Store conn.new) → C.HasTaken check []
        → IsJudged table (state S.Store conn.old) (state S.Store conn.new)
        (λ taken. IsSoundIn table (state S.Store conn.old) (OfSoMany taken.1 (IsRead C.Record.Is C.Record.cells (C.HasTaken taken.0))))
        (IsTable C.Record.Is C.Record.cells (C.AreSound (C.context check))) result }
{
    let mut taker = Records { check };
    let count = judge_rows(conn, alloc, table, &mut taker, watch)?;
    Ok((taker.check, count))
}

/// Whether the tables of the version may hold the last kinds of commands, which came after the first version.
fn knows_later_kinds(version: Version) -> bool
    ensures { result ≡ knows_later_kinds version }
{
    match version {
        Version::First => false,
        Version::Second => true,
    }
}

/// Judges the table of the calendar, the first. The local names were read before it.
fn judge_calendar<S: Alter, W: Watch>(
    conn: &mut Connection<S>,
    alloc: Global,
    court: Court,
    next_row: u64,
    names: KnownTexts,
    watch: &mut W,
) -> Result<TablesRead, AdoptFault>
    ensures writes_nothing { Survives (state S.Store conn.old) (state S.Store conn.new) (λ _. ⊥) }
    ensures mode { conn.old.in_transaction ≡ false → conn.new.in_transaction ≡ false }
    ensures cause { HasCleanDisk (state S.Store conn.new) → IfErr result (IsCausedFault (state S.Store conn.old) (state S.Store conn.new)) }
    ensures ok { (version : Version) (first : Held S) → NamesBefore S.Store version first conn.old names
        → IfOk result (ReadBefore version table.Cases (state S.Store first) court next_row (state S.Store conn.new)) }
    ensures err { (version : Version) (first : Held S) → NamesBefore S.Store version first conn.old names
        → IfErr result (FailsOver version (state S.Store first) court next_row (state S.Store conn.new)) }
{
    let check = CalendarCheck::new(alloc, court, next_row);
    let (check, count) = judge_table(conn, alloc, Table::Calendar, check, watch)?;
    let (court, calendar, short_days) = check.finish(alloc);
    let read = TablesRead::begin(alloc, court, calendar, short_days, names, count)?;
    Ok(read)
}

/// Judges the table of cases.
fn judge_cases<S: Alter, W: Watch>(
    conn: &mut Connection<S>,
    alloc: Global,
    read: &mut TablesRead,
    watch: &mut W,
) -> Result<(), AdoptFault>
    ensures writes_nothing { Survives (state S.Store conn.old) (state S.Store conn.new) (λ _. ⊥) }
    ensures mode { conn.old.in_transaction ≡ false → conn.new.in_transaction ≡ false }
    ensures cause { HasCleanDisk (state S.Store conn.new) → IfErr result (IsCausedFault (state S.Store conn.old) (state S.Store conn.new)) }
    ensures ok { (version : Version) (first : Held S) (court : CourtSettings) (next : ℕ) → ReadBefore version table.Cases (state S.Store first) court next (state S.Store conn.old) read.old
        → IfOk result (λ _. ReadBefore version table.Parties (state S.Store first) court next (state S.Store conn.new) read.new) }
    ensures err { (version : Version) (first : Held S) (court : CourtSettings) (next : ℕ) → ReadBefore version table.Cases (state S.Store first) court next (state S.Store conn.old) read.old
        → IfErr result (FailsOver version (state S.Store first) court next (state S.Store conn.new)) }
{
    let check = CaseCheck::new(alloc);
    let (check, count) = judge_table(conn, alloc, Table::Cases, check, watch)?;
    read.cases = check.cases();
    read.held.cases = count;
    Ok(())
}

/// Judges the table of parties.
fn judge_parties<S: Alter, W: Watch>(
    conn: &mut Connection<S>,
    alloc: Global,
    read: &mut TablesRead,
    watch: &mut W,
) -> Result<(), AdoptFault>
    ensures writes_nothing { Survives (state S.Store conn.old) (state S.Store conn.new) (λ _. ⊥) }
    ensures mode { conn.old.in_transaction ≡ false → conn.new.in_transaction ≡ false }
    ensures cause { HasCleanDisk (state S.Store conn.new) → IfErr result (IsCausedFault (state S.Store conn.old) (state S.Store conn.new)) }
    ensures ok { (version : Version) (first : Held S) (court : CourtSettings) (next : ℕ) → ReadBefore version table.Parties (state S.Store first) court next (state S.Store conn.old) read.old
        → IfOk result (λ _. ReadBefore version table.Entries (state S.Store first) court next (state S.Store conn.new) read.new) }
    ensures err { (version : Version) (first : Held S) (court : CourtSettings) (next : ℕ) → ReadBefore version table.Parties (state S.Store first) court next (state S.Store conn.old) read.old
        → IfErr result (FailsOver version (state S.Store first) court next (state S.Store conn.new)) }
{
    let check = PartyCheck::new(alloc, read.cases)?;
    let (check, count) = judge_table(conn, alloc, Table::Parties, check, watch)?;
    read.parties = check.counts();
    read.held.parties = count;
    Ok(())
}

/// Judges the table of entries.
fn judge_entries<S: Alter, W: Watch>(
    conn: &mut Connection<S>,
    alloc: Global,
    read: &mut TablesRead,
    watch: &mut W,
) -> Result<(), AdoptFault>
    ensures writes_nothing { Survives (state S.Store conn.old) (state S.Store conn.new) (λ _. ⊥) }
    ensures mode { conn.old.in_transaction ≡ false → conn.new.in_transaction ≡ false }
    ensures cause { HasCleanDisk (state S.Store conn.new) → IfErr result (IsCausedFault (state S.Store conn.old) (state S.Store conn.new)) }
    ensures ok { (version : Version) (first : Held S) (court : CourtSettings) (next : ℕ) → ReadBefore version table.Entries (state S.Store first) court next (state S.Store conn.old) read.old
        → IfOk result (λ _. ReadBefore version table.Deadlines (state S.Store first) court next (state S.Store conn.new) read.new) }
    ensures err { (version : Version) (first : Held S) (court : CourtSettings) (next : ℕ) → ReadBefore version table.Entries (state S.Store first) court next (state S.Store conn.old) read.old
        → IfErr result (FailsOver version (state S.Store first) court next (state S.Store conn.new)) }
{
    let check = EntryCheck::new(alloc, read.cases)?;
    let (_, count) = judge_table(conn, alloc, Table::Entries, check, watch)?;
    read.held.entries = count;
    Ok(())
}

/// Judges the tables of cases, parties and entries.
fn judge_before_deadlines<S: Alter, W: Watch>(
    conn: &mut Connection<S>,
    alloc: Global,
    read: &mut TablesRead,
    watch: &mut W,
) -> Result<(), AdoptFault>
    ensures writes_nothing { Survives (state S.Store conn.old) (state S.Store conn.new) (λ _. ⊥) }
    ensures mode { conn.old.in_transaction ≡ false → conn.new.in_transaction ≡ false }
    ensures cause { HasCleanDisk (state S.Store conn.new) → IfErr result (IsCausedFault (state S.Store conn.old) (state S.Store conn.new)) }
    ensures ok { (version : Version) (first : Held S) (court : CourtSettings) (next : ℕ) → ReadBefore version table.Cases (state S.Store first) court next (state S.Store conn.old) read.old
        → IfOk result (λ _. ReadBefore version table.Deadlines (state S.Store first) court next (state S.Store conn.new) read.new) }
    ensures err { (version : Version) (first : Held S) (court : CourtSettings) (next : ℕ) → ReadBefore version table.Cases (state S.Store first) court next (state S.Store conn.old) read.old
        → IfErr result (FailsOver version (state S.Store first) court next (state S.Store conn.new)) }
{
    judge_cases(conn, alloc, read, watch)?;
    judge_parties(conn, alloc, read, watch)?;
    judge_entries(conn, alloc, read, watch)
}

/// Judges the table of deadlines.
fn judge_deadlines<S: Alter, W: Watch>(
    conn: &mut Connection<S>,
    alloc: Global,
    read: TablesRead,
    watch: &mut W,
) -> Result<ActsRead, AdoptFault>
    ensures writes_nothing { Survives (state S.Store conn.old) (state S.Store conn.new) (λ _. ⊥) }
    ensures mode { conn.old.in_transaction ≡ false → conn.new.in_transaction ≡ false }
    ensures cause { HasCleanDisk (state S.Store conn.new) → IfErr result (IsCausedFault (state S.Store conn.old) (state S.Store conn.new)) }
    ensures ok { (version : Version) (first : Held S) (court : CourtSettings) (next : ℕ) → ReadBefore version table.Deadlines (state S.Store first) court next (state S.Store conn.old) read
        → IfOk result (λ now. ActsBefore version (state S.Store first) court next (state S.Store conn.new) now) }
    ensures err { (version : Version) (first : Held S) (court : CourtSettings) (next : ℕ) → ReadBefore version table.Deadlines (state S.Store first) court next (state S.Store conn.old) read
        → IfErr result (FailsOver version (state S.Store first) court next (state S.Store conn.new)) }
{
    let TablesRead {
        court,
        calendar,
        short_days,
        names,
        cases,
        parties,
        held,
    } = read;
    let check = DeadlineCheck::new(alloc, cases, parties, names)?;
    let (check, count) = judge_table(conn, alloc, Table::Deadlines, check, watch)?;
    let (_, deadlines) = check.finish();
    Ok(ActsRead {
        court,
        calendar,
        short_days,
        deadlines,
        held: Holdings {
            deadlines: count,
            ..held
        },
    })
}

/// Judges the tables of cases, parties, entries and deadlines.
fn judge_through_deadlines<S: Alter, W: Watch>(
    conn: &mut Connection<S>,
    alloc: Global,
    mut read: TablesRead,
    watch: &mut W,
) -> Result<ActsRead, AdoptFault>
    ensures writes_nothing { Survives (state S.Store conn.old) (state S.Store conn.new) (λ _. ⊥) }
    ensures mode { conn.old.in_transaction ≡ false → conn.new.in_transaction ≡ false }
    ensures cause { HasCleanDisk (state S.Store conn.new) → IfErr result (IsCausedFault (state S.Store conn.old) (state S.Store conn.new)) }
    ensures ok { (version : Version) (first : Held S) (court : CourtSettings) (next : ℕ) → ReadBefore version table.Cases (state S.Store first) court next (state S.Store conn.old) read
        → IfOk result (λ now. ActsBefore version (state S.Store first) court next (state S.Store conn.new) now) }
    ensures err { (version : Version) (first : Held S) (court : CourtSettings) (next : ℕ) → ReadBefore version table.Cases (state S.Store first) court next (state S.Store conn.old) read
        → IfErr result (FailsOver version (state S.Store first) court next (state S.Store conn.new)) }
{
    judge_before_deadlines(conn, alloc, &mut read, watch)?;
    judge_deadlines(conn, alloc, read, watch)
}

/// Returns the ends of the deadlines whose time runs, and how many deadlines stand where. `None`: the acts
/// that were taken are unsound.
fn finish(check: ActCheck) -> Result<Option<(Vec<StoredEnd>, Standings)>, AllocError>
    ensures ends { (rows : List OnDeadline) → HasTakenActs check rows
        → IfOk result (λ found. IfSome found (λ both. both.0.items ≡ dues_of (zone_of check.court) check.calendar rows)) }
    ensures standings { (rows : List OnDeadline) → HasTakenActs check rows → length rows < 2 ^ 64
        → IfOk result (λ found. IfSome found (λ both. both.1 ≡ counts_of_standings (standings_of (zone_of check.court) check.calendar rows))) }
    ensures sound { (rows : List OnDeadline) → HasTakenActs check rows
        → IfOk result (λ found. IsSome found ↔ AreSoundActs check.court (cases_of check.deadlines) (counts_of check.deadlines) rows) }
{
    let Some(standings) = check.standings() else {
        return Ok(None);
    };
    match check.dues()? {
        Some(ends) => Ok(Some((ends, standings))),
        None => Ok(None),
    }
}

/// Judges the table of acts. Returns the ends of the deadlines whose time runs, by their acts and the days
/// and spans of the table of the calendar.
fn judge_acts<S: Alter, W: Watch>(
    conn: &mut Connection<S>,
    alloc: Global,
    read: ActsRead,
    watch: &mut W,
) -> Result<EndsRead, AdoptFault>
    ensures writes_nothing { Survives (state S.Store conn.old) (state S.Store conn.new) (λ _. ⊥) }
    ensures mode { conn.old.in_transaction ≡ false → conn.new.in_transaction ≡ false }
    ensures cause { HasCleanDisk (state S.Store conn.new) → IfErr result (IsCausedFault (state S.Store conn.old) (state S.Store conn.new)) }
    ensures ok { (version : Version) (first : Held S) (court : CourtSettings) (next : ℕ) → ActsBefore version (state S.Store first) court next (state S.Store conn.old) read
        → IfOk result (λ now. EndsBefore version table.Receipts (state S.Store first) court next (state S.Store conn.new) now) }
    ensures err { (version : Version) (first : Held S) (court : CourtSettings) (next : ℕ) → ActsBefore version (state S.Store first) court next (state S.Store conn.old) read
        → IfErr result (FailsOver version (state S.Store first) court next (state S.Store conn.new)) }
{
    let ActsRead {
        court,
        calendar,
        short_days,
        deadlines,
        held,
    } = read;
    let check = ActCheck::new(alloc, court, calendar, deadlines)?;
    let (check, _) = judge_table(conn, alloc, Table::Acts, check, watch)?;
    match finish(check)? {
        Some((ends, standings)) => Ok(EndsRead {
            ends,
            short_days,
            held: Holdings { standings, ..held },
        }),
        None => Err(AdoptFault::Damaged(Table::Acts)),
    }
}

/// Judges the table of receipts, by the kinds of commands that the version knows.
fn judge_receipts<S: Alter, W: Watch>(
    conn: &mut Connection<S>,
    alloc: Global,
    version: Version,
    read: EndsRead,
    watch: &mut W,
) -> Result<EndsRead, AdoptFault>
    ensures writes_nothing { Survives (state S.Store conn.old) (state S.Store conn.new) (λ _. ⊥) }
    ensures mode { conn.old.in_transaction ≡ false → conn.new.in_transaction ≡ false }
    ensures cause { HasCleanDisk (state S.Store conn.new) → IfErr result (IsCausedFault (state S.Store conn.old) (state S.Store conn.new)) }
    ensures ok { (first : Held S) (court : CourtSettings) (next : ℕ) → EndsBefore version table.Receipts (state S.Store first) court next (state S.Store conn.old) read
        → IfOk result (λ now. EndsBefore version table.Due (state S.Store first) court next (state S.Store conn.new) now) }
    ensures err { (first : Held S) (court : CourtSettings) (next : ℕ) → EndsBefore version table.Receipts (state S.Store first) court next (state S.Store conn.old) read
        → IfErr result (FailsOver version (state S.Store first) court next (state S.Store conn.new)) }
{
    let check = ReceiptCheck::new(knows_later_kinds(version));
    let (_, count) = judge_table(conn, alloc, Table::Receipts, check, watch)?;
    let held = Holdings {
        receipts: count,
        ..read.held
    };
    Ok(EndsRead { held, ..read })
}

/// Judges the table of ends, the last of the first version.
fn judge_due<S: Alter, W: Watch>(
    conn: &mut Connection<S>,
    alloc: Global,
    read: EndsRead,
    watch: &mut W,
) -> Result<LastRead, AdoptFault>
    ensures writes_nothing { Survives (state S.Store conn.old) (state S.Store conn.new) (λ _. ⊥) }
    ensures mode { conn.old.in_transaction ≡ false → conn.new.in_transaction ≡ false }
    ensures cause { HasCleanDisk (state S.Store conn.new) → IfErr result (IsCausedFault (state S.Store conn.old) (state S.Store conn.new)) }
    ensures ok { (version : Version) (first : Held S) (court : CourtSettings) (next : ℕ) → EndsBefore version table.Due (state S.Store first) court next (state S.Store conn.old) read
        → IfOk result (λ now. LastBefore version (state S.Store first) court next (state S.Store conn.new) now) }
    ensures err { (version : Version) (first : Held S) (court : CourtSettings) (next : ℕ) → EndsBefore version table.Due (state S.Store first) court next (state S.Store conn.old) read
        → IfErr result (FailsOver version (state S.Store first) court next (state S.Store conn.new)) }
{
    let EndsRead {
        ends,
        short_days,
        held,
    } = read;
    let (check, _) = judge_table(conn, alloc, Table::Due, DueCheck::new(ends), watch)?;
    if check.is_sound() {
        Ok(LastRead { short_days, held })
    } else {
        Err(AdoptFault::Damaged(Table::Due))
    }
}

/// Adds two counts of rows, of which a sound calendar has 4,000 at most.
fn with_more(rows: u64, more: u64) -> u64
    ensures { rows + more ≤ most_rows → result ≡ rows + more }
{
    rows.saturating_add(more)
}

/// Judges the table of short days. Returns how much the tables hold, with it.
fn judge_short_days<S: Alter, W: Watch>(
    conn: &mut Connection<S>,
    alloc: Global,
    read: LastRead,
    watch: &mut W,
) -> Result<Holdings, AdoptFault>
    ensures writes_nothing { Survives (state S.Store conn.old) (state S.Store conn.new) (λ _. ⊥) }
    ensures mode { conn.old.in_transaction ≡ false → conn.new.in_transaction ≡ false }
    ensures cause { HasCleanDisk (state S.Store conn.new) → IfErr result (IsCausedFault (state S.Store conn.old) (state S.Store conn.new)) }
    ensures ok { (first : Held S) (court : CourtSettings) (next : ℕ) → LastBefore Second (state S.Store first) court next (state S.Store conn.old) read
        → IfOk result (λ now. HeldBefore (state S.Store first) court next (state S.Store conn.new) now) }
    ensures err { (first : Held S) (court : CourtSettings) (next : ℕ) → LastBefore Second (state S.Store first) court next (state S.Store conn.old) read
        → IfErr result (FailsOver Second (state S.Store first) court next (state S.Store conn.new)) }
{
    let LastRead { short_days, held } = read;
    let (_, count) = judge_table(conn, alloc, Table::ShortDays, short_days, watch)?;
    Ok(Holdings {
        calendar_rows: with_more(held.calendar_rows, count),
        ..held
    })
}

/// Judges the table of local rules, the last. Returns how much the tables hold, with it.
fn judge_local_rules<S: Alter, W: Watch>(
    conn: &mut Connection<S>,
    alloc: Global,
    held: Holdings,
    watch: &mut W,
) -> Result<Holdings, AdoptFault>
    ensures writes_nothing { Survives (state S.Store conn.old) (state S.Store conn.new) (λ _. ⊥) }
    ensures mode { conn.old.in_transaction ≡ false → conn.new.in_transaction ≡ false }
    ensures cause { HasCleanDisk (state S.Store conn.new) → IfErr result (IsCausedFault (state S.Store conn.old) (state S.Store conn.new)) }
    ensures told { (first : Held S) (court : CourtSettings) (next : ℕ) → HeldBefore (state S.Store first) court next (state S.Store conn.old) held
        → HasCleanDisk (state S.Store conn.new) → AreJudged Second court next (state S.Store first) (state S.Store conn.new) (λ r held. held ≡ holdings_of court r) result }
{
    let check = LocalRuleCheck::new(alloc);
    let (_, count) = judge_table(conn, alloc, Table::LocalRules, check, watch)?;
    Ok(Holdings {
        local_rules: count,
        ..held
    })
}

/// Judges the tables of the version behind that of ends: the first version has none. Returns how much the
/// tables hold.
fn judge_more<S: Alter, W: Watch>(
    conn: &mut Connection<S>,
    alloc: Global,
    version: Version,
    read: LastRead,
    watch: &mut W,
) -> Result<Holdings, AdoptFault>
    ensures writes_nothing { Survives (state S.Store conn.old) (state S.Store conn.new) (λ _. ⊥) }
    ensures mode { conn.old.in_transaction ≡ false → conn.new.in_transaction ≡ false }
    ensures cause { HasCleanDisk (state S.Store conn.new) → IfErr result (IsCausedFault (state S.Store conn.old) (state S.Store conn.new)) }
    ensures told { (first : Held S) (court : CourtSettings) (next : ℕ) → LastBefore version (state S.Store first) court next (state S.Store conn.old) read
        → HasCleanDisk (state S.Store conn.new) → AreJudged version court next (state S.Store first) (state S.Store conn.new) (λ r held. held ≡ holdings_of court r) result }
{
    match version {
        Version::First => Ok(read.held),
        Version::Second => {
            let held = judge_short_days(conn, alloc, read, watch)?;
            judge_local_rules(conn, alloc, held, watch)
        }
    }
}

/// Judges the tables of a court's docket in a version, except that of the court. `next_row` is the number of
/// the next row of the calendar, by the court's row. Returns how much they hold. An error names the first of
/// them, in their order, that is missing, lacks a column, can't be read or is unsound by those before it. Out
/// of memory and a failure of the database may come at any point. It reads the local names, by which
/// deadlines are judged, before all of them, and writes nothing.
/// are judged, are read before them all. Nothing is written.
pub(crate) fn judge_tables<S: Alter, W: Watch>(
    conn: &mut Connection<S>,
    alloc: Global,
    version: Version,
    court: Court,
    next_row: u64,
    watch: &mut W,
) -> Result<Holdings, AdoptFault>
    ensures writes_nothing { Survives (state S.Store conn.old) (state S.Store conn.new) (λ _. ⊥) }
    ensures mode { conn.old.in_transaction ≡ false → conn.new.in_transaction ≡ false }
    ensures cause { HasCleanDisk (state S.Store conn.new) → IfErr result (IsCausedFault (state S.Store conn.old) (state S.Store conn.new)) }
    ensures told { HasCleanDisk (state S.Store conn.new)
        → AreJudged version court next_row (state S.Store conn.old) (state S.Store conn.new) (λ r held. held ≡ holdings_of court r) result }
{
    let names = read_names(conn, alloc, version, watch)?;
    let read = judge_calendar(conn, alloc, court, next_row, names, watch)?;
    let acts = judge_through_deadlines(conn, alloc, read, watch)?;
    let ends = judge_acts(conn, alloc, acts, watch)?;
    let ends = judge_receipts(conn, alloc, version, ends, watch)?;
    let last = judge_due(conn, alloc, ends, watch)?;
    judge_more(conn, alloc, version, last, watch)
}
