//! Commands.
ghost use Rattle.std.specs.Prelude.{◌≡◌, ◌↔◌, IfOk, IsTrue};
ghost use Rattle.docket_command.specs.Sameness.{is_same_action, is_same_command};

use crate::calendar_action::{
    CloseDay, CloseSpan, DeclareDay, ImportCalendar, ShortDay, WithdrawCalendar,
};
use crate::case_action::{AddParty, FileEntry, OpenCase};
use crate::local_action::{LocalPeriod, is_same_local_rule};
use crate::motion_action::{Dispose, RuleMotion, StatementServed};
use crate::service_action::{FileWaiver, OrderReply, ServePleading, ServeSummons};
use crate::time_action::{EnterJudgment, Extend, NoticeHearing, OrderPeriod, Satisfy, Vacate};
use court_rules::{LocalRule, Text};
use std::alloc::AllocError;

/// What the clerk asks for, under a key that the clerk chooses, by which a repeat is recognised.
#[derive(Clone, Drop)]
pub struct Command {
    pub key: Text,
    pub action: Action,
}

/// What a command asks for. Its days and moments may lie outside the limits of what the docket
/// enters, its texts may be of any length, and its numbers may name nothing.
#[derive(Clone, Drop)]
pub enum Action {
    DeclareDay(DeclareDay),
    CloseDay(CloseDay),
    CloseSpan(CloseSpan),
    ShortDay(ShortDay),
    WithdrawCalendar(WithdrawCalendar),
    ImportCalendar(ImportCalendar),
    OpenCase(OpenCase),
    AddParty(AddParty),
    FileEntry(FileEntry),
    ServeSummons(ServeSummons),
    FileWaiver(FileWaiver),
    ServePleading(ServePleading),
    OrderReply(OrderReply),
    RuleMotion(RuleMotion),
    Dispose(Dispose),
    StatementServed(StatementServed),
    NoticeHearing(NoticeHearing),
    OrderPeriod(OrderPeriod),
    EnterJudgment(EnterJudgment),
    Extend(Extend),
    Satisfy(Satisfy),
    Vacate(Vacate),
    LocalRule(LocalRule),
    LocalPeriod(LocalPeriod),
}

impl Action {
    #[tactic(auto, using(crate::proofs::SamenessLemmas::other_kinds))]
    fn same(&self, other: &Action) -> bool
        ensures { result ≡ is_same_action self.now other.now }
    {
        match (self, other) {
            (Action::DeclareDay(a), Action::DeclareDay(b)) => a.same(b),
            (Action::CloseDay(a), Action::CloseDay(b)) => a.same(b),
            (Action::CloseSpan(a), Action::CloseSpan(b)) => a.same(b),
            (Action::ShortDay(a), Action::ShortDay(b)) => a.same(b),
            (Action::WithdrawCalendar(a), Action::WithdrawCalendar(b)) => a.same(b),
            (Action::ImportCalendar(a), Action::ImportCalendar(b)) => a.same(b),
            (Action::OpenCase(a), Action::OpenCase(b)) => a.same(b),
            (Action::AddParty(a), Action::AddParty(b)) => a.same(b),
            (Action::FileEntry(a), Action::FileEntry(b)) => a.same(b),
            (Action::ServeSummons(a), Action::ServeSummons(b)) => a.same(b),
            (Action::FileWaiver(a), Action::FileWaiver(b)) => a.same(b),
            (Action::ServePleading(a), Action::ServePleading(b)) => a.same(b),
            (Action::OrderReply(a), Action::OrderReply(b)) => a.same(b),
            (Action::RuleMotion(a), Action::RuleMotion(b)) => a.same(b),
            (Action::Dispose(a), Action::Dispose(b)) => a.same(b),
            (Action::StatementServed(a), Action::StatementServed(b)) => a.same(b),
            (Action::NoticeHearing(a), Action::NoticeHearing(b)) => a.same(b),
            (Action::OrderPeriod(a), Action::OrderPeriod(b)) => a.same(b),
            (Action::EnterJudgment(a), Action::EnterJudgment(b)) => a.same(b),
            (Action::Extend(a), Action::Extend(b)) => a.same(b),
            (Action::Satisfy(a), Action::Satisfy(b)) => a.same(b),
            (Action::Vacate(a), Action::Vacate(b)) => a.same(b),
            (Action::LocalRule(a), Action::LocalRule(b)) => is_same_local_rule(a, b),
            (Action::LocalPeriod(a), Action::LocalPeriod(b)) => a.same(b),
            _ => false,
        }
    }
}

impl Command {
    /// The same command again.
    pub fn copied(&self) -> Result<Command, AllocError>
        ensures { IfOk result (λ copy. copy ≡ self.now) }
    {
        self.clone()
    }

    /// Whether they are one command: the same key, the same kind, and the same in each field.
    #[tactic(auto, using(crate::proofs::SamenessLemmas::same_command))]
    pub fn same(&self, other: &Command) -> bool
        ensures value { result ≡ is_same_command self.now other.now }
        ensures means { IsTrue result ↔ self.now ≡ other.now }
    {
        self.compared(other)
    }

    fn compared(&self, other: &Command) -> bool
        ensures { result ≡ is_same_command self.now other.now }
    {
        self.key.same(&other.key) && self.action.same(&other.action)
    }
}
