//! The table of acts.
ghost use Rattle.std.specs.Prelude.{◌≡◌, ◌↔◌, ◌++◌, ◌∷◌, [], List, true, false, Ok, IfOk, IfSome, IsSome, OnOk, IsTrue, ◌&&◌, ◌+◌, ◌-◌, ◌^◌, ◌<◌, length};
ghost use Rattle.std.specs.List.{list_all};
ghost use Rattle.court_days.specs.Court.{zone_of};
ghost use Rattle.court_rules.specs.Acts.{is_instant};
ghost use Rattle.court_rules.specs.declared.act.Standing.{Standing as Stood};
ghost use Rattle.docket_history.specs.declared.row.ActRow.{ActRow as OnDeadline};
ghost use Rattle.docket_sound.specs.Acts.{is_entered_at, is_on_entered_day, are_lawful, continues, begins, may_close, may_go_on, AreSoundActs, HasTakenActs};
ghost use Rattle.docket_sound.specs.Counted.{HasNumbered, cases_of, counts_of};
ghost use Rattle.docket_sound.specs.Dues.{last_dues, dues_of};
ghost use Rattle.docket_sound.specs.Runs.{run_key, alone};
ghost use Rattle.docket_sound.specs.Standings.{counts_of_standings, last_standings, standings_of};
ghost use Rattle.docket_sound.specs.declared.numbering.Key.{Key as Place};

use crate::due::{deadline_standing, push_due};
use crate::numbering::{Key, Numbering};
use crate::standings::Standings;
use court_days::{Calendar, Court};
use court_rules::{Act, Standing, Start, acts_ok};
use docket_decisions::StoredEnd;
use docket_history::ActRow;
use docket_values::is_entered;
use std::alloc::{AllocError, Global};

/// How many acts a deadline has at most.
const MOST_ACTS: usize = 100;

/// How many deadlines a case has at most.
const MOST_DEADLINES: u32 = 1000;

/// 1999-12-31T00:00Z and 2100-01-02T00:00Z: each instant whose local day in some zone may be entered
/// lies between them.
const FIRST_INSTANT: i64 = 946_598_400;

const LAST_INSTANT: i64 = 4_102_531_200;

/// Whether the local day of the instant in the court is one that it may enter.
fn is_entered_at(court: &Court, at: i64) -> bool
    ensures { result ≡ is_entered_at (zone_of court.now) at }
{
    (FIRST_INSTANT..=LAST_INSTANT).contains(&at) && is_entered(court.local(at).0)
}

/// Whether the act's instant, if it has one, is on a day that the court may enter.
fn is_on_entered_day(court: &Court, act: Act) -> bool
    ensures { result ≡ is_on_entered_day (zone_of court.now) act }
{
    match act {
        Act::Start(Start::Hours(hours)) => is_entered_at(court, hours.at),
        Act::Done(at, _) => is_entered_at(court, at),
        _ => true,
    }
}

fn are_on_entered_days(court: &Court, acts: &[Act]) -> bool
    ensures { result ≡ list_all (is_on_entered_day (zone_of court.now)) acts.now }
{
    acts.iter().all(|act| is_on_entered_day(court, *act))
}

/// Whether a deadline of the court may have the acts.
fn are_lawful(court: &Court, acts: &[Act]) -> bool
    ensures { result ≡ are_lawful (zone_of court.now) acts.now }
{
    acts_ok(acts) && are_on_entered_days(court, acts)
}

/// The check of the acts of a court's deadlines. It keeps the acts of one deadline. Of the deadlines before
/// it, it keeps how many each case has, and the ends of those whose time runs.
#[derive(Drop)]
pub struct ActCheck {
    pub(crate) court: Court,
    pub(crate) calendar: Calendar,
    /// How many deadlines each case has.
    pub(crate) deadlines: Numbering,
    /// How many of them have come with acts.
    pub(crate) runs: Numbering,
    /// The deadline that came last, and its acts so far.
    pub(crate) case: u32,
    pub(crate) deadline: u32,
    pub(crate) acts: Vec<Act>,
    /// The ends of those before it.
    pub(crate) dues: Vec<StoredEnd>,
    /// How many of those before it stand where.
    pub(crate) standings: Standings,
}

impl ActCheck {
    /// The check of the acts of a court's deadlines, by how many each case has.
    pub fn new(
        alloc: Global,
        court: Court,
        calendar: Calendar,
        deadlines: Numbering,
    ) -> Result<ActCheck, AllocError>
        ensures none { (keys : List Place) → HasNumbered deadlines keys → IfOk result (λ check. HasTakenActs check []) }
        ensures court { IfOk result (λ check. check.court ≡ court) }
        ensures deadlines { IfOk result (λ check. check.deadlines ≡ deadlines) }
        ensures calendar { IfOk result (λ check. check.calendar ≡ calendar) }
    {
        let runs = Numbering::alike(alloc, &deadlines, MOST_DEADLINES)?;
        Ok(ActCheck {
            court,
            calendar,
            deadlines,
            runs,
            case: 0,
            deadline: 0,
            acts: Vec::new(alloc),
            dues: Vec::new(alloc),
            standings: Standings::none(),
        })
    }

    /// Whether the row is of the deadline that came last.
    fn continues(&self, row: &ActRow) -> bool
        ensures { result ≡ continues self.now row.now }
    {
        !self.acts.is_empty() && row.case == self.case && row.deadline == self.deadline
    }

    /// Whether the row has the next number, and there is room for it.
    fn may_go_on(&self, row: &ActRow) -> bool
        ensures { result ≡ may_go_on self.now row.now }
    {
        self.acts.len() < MOST_ACTS && row.number as usize == self.acts.len() + 1
    }

    /// Whether the deadline that came last, if one did, has lawful acts.
    fn may_close(&self) -> bool
        ensures { result ≡ may_close self.now }
    {
        self.acts.is_empty() || are_lawful(&self.court, self.acts.as_slice())
    }

    /// Whether the row may begin a deadline's acts: those before it are lawful.
    fn may_begin(&self, row: &ActRow) -> bool
        ensures { result ≡ (may_close self.now && begins row.now) }
    {
        self.may_close() && row.number == 1
    }

    /// Keeps the act in place of those before it.
    fn begin(&mut self, row: &ActRow) -> Result<(), AllocError>
        ensures acts { OnOk result (self.new.acts.items ≡ row.now.act ∷ []) }
        ensures case { OnOk result (self.new.case ≡ row.now.case) }
        ensures deadline { OnOk result (self.new.deadline ≡ row.now.deadline) }
        ensures court { self.new.court ≡ self.old.court }
        ensures deadlines { self.new.deadlines ≡ self.old.deadlines }
        ensures runs { self.new.runs ≡ self.old.runs }
        ensures calendar { self.new.calendar ≡ self.old.calendar }
        ensures dues { self.new.dues ≡ self.old.dues }
        ensures standings { self.new.standings ≡ self.old.standings }
    {
        self.acts.clear();
        self.acts.extend_from_slice(&[row.act])?;
        self.case = row.case;
        self.deadline = row.deadline;
        Ok(())
    }

    /// Adds the row of the deadline that came last, if one did and its time runs, and counts it.
    fn close(&mut self) -> Result<(), AllocError>
        requires { may_close self.old ≡ true }
        ensures dues { OnOk result (self.new.dues.items ≡ self.old.dues.items ++ last_dues self.old) }
        ensures standings { (standings : List Stood) → self.old.standings ≡ counts_of_standings standings → length standings < 2 ^ 64 - 1
            → OnOk result (self.new.standings ≡ counts_of_standings (standings ++ last_standings self.old)) }
        ensures same { self.new ≡ record self.old { dues = self.new.dues; standings = self.new.standings } }
    {
        if self.acts.is_empty() {
            return Ok(());
        }
        let standing = deadline_standing(&self.court, &self.calendar, self.acts.as_slice());
        push_due(
            &mut self.dues,
            &self.court,
            self.case,
            self.deadline,
            &standing,
        )?;
        self.standings.count(&standing);
        Ok(())
    }

    /// Takes the next row, unless the table is unsound by it.
    pub fn take(&mut self, row: &ActRow) -> Result<bool, AllocError>
        ensures taken { (rows : List OnDeadline) → HasTakenActs self.old rows → result ≡ Ok true
            → HasTakenActs self.new (rows ++ row.now ∷ []) }
        ensures refused { (rows more : List OnDeadline) → HasTakenActs self.old rows → result ≡ Ok false
            → AreSoundActs self.old.court (cases_of self.old.deadlines) (counts_of self.old.deadlines) (rows ++ row.now ∷ more) → ⊥ }
        ensures court { self.new.court ≡ self.old.court }
        ensures deadlines { self.new.deadlines ≡ self.old.deadlines }
        ensures calendar { self.new.calendar ≡ self.old.calendar }
    {
        if self.continues(row) {
            if !self.may_go_on(row) {
                return Ok(false);
            }
            self.acts.extend_from_slice(&[row.act])?;
            return Ok(true);
        }
        if !self.may_begin(row) {
            return Ok(false);
        }
        if !self.runs.take(act_key(row)) {
            return Ok(false);
        }
        self.close()?;
        self.begin(row)?;
        Ok(true)
    }

    /// Whether the rows that were taken are all those of sound acts.
    pub fn is_sound(&self) -> bool
        ensures sound { (rows : List OnDeadline) → HasTakenActs self.now rows
            → IsTrue result ↔ AreSoundActs self.now.court (cases_of self.now.deadlines) (counts_of self.now.deadlines) rows }
        ensures closed { IsTrue result → may_close self.now ≡ true }
    {
        self.may_close()
            && are_same(
                self.runs.counts.as_slice(),
                self.deadlines.counts.as_slice(),
            )
    }

    /// How many deadlines stand where. `None`: the acts are unsound.
    pub fn standings(&self) -> Option<Standings>
        ensures some { (rows : List OnDeadline) → HasTakenActs self.now rows → length rows < 2 ^ 64
            → IfSome result (λ counts. counts ≡ counts_of_standings (standings_of (zone_of self.now.court) self.now.calendar rows)) }
        ensures sound { (rows : List OnDeadline) → HasTakenActs self.now rows
            → IsSome result ↔ AreSoundActs self.now.court (cases_of self.now.deadlines) (counts_of self.now.deadlines) rows }
    {
        if !self.is_sound() {
            return None;
        }
        let mut counts = self.standings;
        if self.acts.is_empty() {
            return Some(counts);
        }
        let standing = deadline_standing(&self.court, &self.calendar, self.acts.as_slice());
        counts.count(&standing);
        Some(counts)
    }

    /// The rows of the running deadlines. `None`: the acts are unsound.
    pub fn dues(mut self) -> Result<Option<Vec<StoredEnd>>, AllocError>
        ensures some { (rows : List OnDeadline) → HasTakenActs self rows
            → IfOk result (λ found. IfSome found (λ dues. dues.items ≡ dues_of (zone_of self.court) self.calendar rows)) }
        ensures sound { (rows : List OnDeadline) → HasTakenActs self rows
            → IfOk result (λ found. IsSome found ↔ AreSoundActs self.court (cases_of self.deadlines) (counts_of self.deadlines) rows) }
    {
        if !self.is_sound() {
            return Ok(None);
        }
        self.close()?;
        Ok(Some(self.into_dues()))
    }

    fn into_dues(self) -> Vec<StoredEnd>
        ensures { result.items ≡ self.dues.items }
    {
        self.dues
    }
}

/// The case and the deadline of the row.
fn act_key(row: &ActRow) -> Key
    ensures { result ≡ run_key (alone row.now) }
{
    Key {
        case: row.case,
        number: row.deadline,
    }
}

/// Whether the counts are the same.
fn are_same(counts: &[u32], others: &[u32]) -> bool
    ensures { IsTrue result ↔ (counts.now ≡ others.now) }
{
    counts == others
}
