//! The check of each table.

use crate::check::RecordCheck;
use crate::receipt::StoredReceipt;
use docket_decisions::StoredEnd;
use docket_history::{
    ActRow, CalendarRow, CaseRow, DeadlineRow, EntryRow, LocalRuleRow, PartyRow, ShortDayRow,
};
use docket_sound::{
    ActCheck, CalendarCheck, CaseCheck, DeadlineCheck, DueCheck, EntryCheck, LocalRuleCheck,
    PartyCheck, ReceiptCheck, ShortDayCheck,
};
use std::alloc::{AllocError, Global};

impl RecordCheck for CalendarCheck {
    ghost use Rattle.docket_sound.specs.Calendars.{AreSoundCalendarRows, HasTakenCalendarRows};
    ghost use Rattle.docket_scan.specs.Taken.{CalendarContext, calendar_context};

    type Record = CalendarRow;

    ghost HasTaken = { HasTakenCalendarRows };

    ghost Context = { CalendarContext };

    ghost context = { calendar_context };

    ghost AreSound = { λ c. AreSoundCalendarRows c.0 c.1 };

    fn take(&mut self, _alloc: Global, next: &CalendarRow) -> Result<bool, AllocError> {
        self.take(next)
    }
}

impl RecordCheck for ShortDayCheck {
    ghost use Rattle.docket_sound.specs.ShortDays.{AreSoundShortDays, HasTakenShortDays};
    ghost use Rattle.docket_scan.specs.Taken.{ShortDayContext, short_day_context};

    type Record = ShortDayRow;

    ghost HasTaken = { HasTakenShortDays };

    ghost Context = { ShortDayContext };

    ghost context = { short_day_context };

    ghost AreSound = { λ c. AreSoundShortDays c.0 c.1 c.2 };

    fn take(&mut self, _alloc: Global, next: &ShortDayRow) -> Result<bool, AllocError> {
        self.take(next)
    }
}

impl RecordCheck for CaseCheck {
    ghost use Rattle.docket_sound.specs.Cases.{AreSoundCases, HasTakenCases};
    ghost use Rattle.std.specs.Prelude.{⊤};

    type Record = CaseRow;

    ghost HasTaken = { HasTakenCases };

    ghost Context = { ⊤ };

    ghost context = { λ _. tt };

    ghost AreSound = { λ _. AreSoundCases };

    fn take(&mut self, alloc: Global, next: &CaseRow) -> Result<bool, AllocError> {
        self.take(alloc, next)
    }
}

impl RecordCheck for PartyCheck {
    ghost use Rattle.std.specs.Prelude.{ℕ};
    ghost use Rattle.docket_sound.specs.Parties.{AreSoundParties, HasTakenParties, parties_checked};

    type Record = PartyRow;

    ghost HasTaken = { HasTakenParties };

    ghost Context = { ℕ };

    ghost context = { parties_checked };

    ghost AreSound = { AreSoundParties };

    fn take(&mut self, _alloc: Global, next: &PartyRow) -> Result<bool, AllocError> {
        Ok(self.take(next))
    }
}

impl RecordCheck for EntryCheck {
    ghost use Rattle.std.specs.Prelude.{ℕ};
    ghost use Rattle.docket_sound.specs.Entries.{AreSoundEntries, HasTakenEntries, entries_checked};

    type Record = EntryRow;

    ghost HasTaken = { HasTakenEntries };

    ghost Context = { ℕ };

    ghost context = { entries_checked };

    ghost AreSound = { AreSoundEntries };

    fn take(&mut self, _alloc: Global, next: &EntryRow) -> Result<bool, AllocError> {
        Ok(self.take(next))
    }
}

impl RecordCheck for DeadlineCheck {
    ghost use Rattle.docket_sound.specs.Deadlines.{AreSoundDeadlines, HasTakenDeadlines};
    ghost use Rattle.docket_scan.specs.Taken.{DeadlineContext, deadline_context};

    type Record = DeadlineRow;

    ghost HasTaken = { HasTakenDeadlines };

    ghost Context = { DeadlineContext };

    ghost context = { deadline_context };

    ghost AreSound = { λ c. AreSoundDeadlines c.0 c.1 c.2 };

    fn take(&mut self, _alloc: Global, next: &DeadlineRow) -> Result<bool, AllocError> {
        Ok(self.take(next))
    }
}

impl RecordCheck for ActCheck {
    ghost use Rattle.docket_sound.specs.Acts.{AreSoundActs, HasTakenActs};
    ghost use Rattle.docket_scan.specs.Taken.{ActContext, act_context};

    type Record = ActRow;

    ghost HasTaken = { HasTakenActs };

    ghost Context = { ActContext };

    ghost context = { act_context };

    ghost AreSound = { λ c. AreSoundActs c.0 c.1 c.2 };

    fn take(&mut self, _alloc: Global, next: &ActRow) -> Result<bool, AllocError> {
        self.take(next)
    }
}

impl RecordCheck for ReceiptCheck {
    ghost use Rattle.std.specs.Prelude.{Bool};
    ghost use Rattle.docket_scan.specs.Records.{AreSoundStored};
    ghost use Rattle.docket_scan.specs.Taken.{HasTakenStored};

    type Record = StoredReceipt;

    ghost HasTaken = { HasTakenStored };

    ghost Context = { Bool };

    ghost context = { λ check. check.later };

    ghost AreSound = { AreSoundStored };

    fn take(&mut self, alloc: Global, next: &StoredReceipt) -> Result<bool, AllocError> {
        self.take(alloc, &next.receipt)
    }
}

impl RecordCheck for DueCheck {
    ghost use Rattle.std.specs.Prelude.{◌≡◌, List};
    ghost use Rattle.docket_decisions.specs.declared.end_row.StoredEnd.{StoredEnd as Stored};
    ghost use Rattle.docket_sound.specs.Dues.{HasTakenDues};
    ghost use Rattle.docket_scan.specs.Taken.{ends_expected};

    type Record = StoredEnd;

    ghost HasTaken = { HasTakenDues };

    ghost Context = { List Stored };

    ghost context = { ends_expected };

    ghost AreSound = { λ expected ends. ends ≡ expected };

    fn take(&mut self, _alloc: Global, next: &StoredEnd) -> Result<bool, AllocError> {
        Ok(self.take(*next))
    }
}

impl RecordCheck for LocalRuleCheck {
    ghost use Rattle.docket_sound.specs.LocalRules.{AreSoundLocalRules, HasTakenLocalRules};
    ghost use Rattle.std.specs.Prelude.{⊤};

    type Record = LocalRuleRow;

    ghost HasTaken = { HasTakenLocalRules };

    ghost Context = { ⊤ };

    ghost context = { λ _. tt };

    ghost AreSound = { λ _. AreSoundLocalRules };

    fn take(&mut self, alloc: Global, next: &LocalRuleRow) -> Result<bool, AllocError> {
        self.take(alloc, next)
    }
}
