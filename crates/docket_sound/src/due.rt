//! The table of the ends of running deadlines.
ghost use Rattle.std.specs.Prelude.{◌≡◌, ◌↔◌, ◌++◌, ◌∷◌, [], List, true, false, OnOk, IsTrue, slice_get};
ghost use Rattle.court_days.specs.Court.{zone_of};
ghost use Rattle.court_rules.specs.Standings.{StandsAfter, standing};
ghost use Rattle.docket_decisions.specs.EndRows.{end_row, end_running};
ghost use Rattle.docket_decisions.specs.declared.end_row.StoredEnd.{StoredEnd as Stored};
ghost use Rattle.docket_sound.specs.Acts.{are_lawful};
ghost use Rattle.docket_sound.specs.Dues.{HasTakenDues};

use court_days::{Calendar, Court};
use court_rules::{Act, Standing, due};
use docket_decisions::{StoredEnd, end_running};
use std::alloc::AllocError;

/// Where a deadline with these acts stands by the calendar.
pub(crate) fn deadline_standing(court: &Court, calendar: &Calendar, acts: &[Act]) -> Standing
    requires lawful { are_lawful (zone_of court.now) acts.now ≡ true }
    ensures value { result ≡ standing (zone_of court.now) calendar.now acts.now }
    ensures near { StandsAfter 100 result }
{
    due(court, calendar, acts)
}

/// Adds the row of a deadline with that standing, if its time runs.
pub(crate) fn push_due(
    dues: &mut Vec<StoredEnd>,
    court: &Court,
    case: u32,
    deadline: u32,
    standing: &Standing,
) -> Result<(), AllocError>
    requires { StandsAfter 100 standing.now }
    ensures { OnOk result (dues.new.items ≡ dues.old.items ++ end_row case deadline (end_running (zone_of court.now) standing.now)) }
{
    let Some(end) = end_running(court, *standing) else {
        return Ok(());
    };
    dues.extend_from_slice(&[StoredEnd {
        case,
        deadline,
        end,
    }])?;
    Ok(())
}

fn is_same_due(due: StoredEnd, other: StoredEnd) -> bool
    ensures { IsTrue result ↔ (due ≡ other) }
{
    due.case == other.case
        && due.deadline == other.deadline
        && due.end.day == other.end.day
        && due.end.moment == other.end.moment
}

/// The check of these rows, which are those of the running deadlines in the order of their keys.
#[derive(Drop)]
pub struct DueCheck {
    pub(crate) expected: Vec<StoredEnd>,
    pub(crate) at: usize,
}

impl DueCheck {
    pub fn new(expected: Vec<StoredEnd>) -> DueCheck
        ensures none { HasTakenDues result [] }
        ensures expected { result.expected ≡ expected }
    {
        DueCheck { expected, at: 0 }
    }

    /// The row that comes next.
    fn next_row(&self) -> Option<StoredEnd>
        ensures { result ≡ slice_get self.now.expected.items self.now.at }
    {
        self.expected.get(self.at).copied()
    }

    /// Takes the next row, unless the table is unsound by it.
    pub fn take(&mut self, row: StoredEnd) -> bool
        ensures taken { (rows : List Stored) → HasTakenDues self.old rows → result ≡ true → HasTakenDues self.new (rows ++ row ∷ []) }
        ensures refused { (rows more : List Stored) → HasTakenDues self.old rows → result ≡ false
            → rows ++ row ∷ more ≡ self.old.expected.items → ⊥ }
        ensures expected { self.new.expected ≡ self.old.expected }
    {
        match self.next_row() {
            Some(expected) if is_same_due(expected, row) => {
                self.at += 1;
                true
            }
            _ => false,
        }
    }

    /// Whether all rows were taken.
    pub fn is_sound(&self) -> bool
        ensures { (rows : List Stored) → HasTakenDues self.now rows → IsTrue result ↔ (rows ≡ self.now.expected.items) }
    {
        self.at == self.expected.len()
    }
}
