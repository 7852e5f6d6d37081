//! What a docket shows about a command.
ghost use Rattle.std.specs.Prelude.{◌≡◌, ◌<◌, ◌^◌, length, option_copied};
ghost use Rattle.docket_history.specs.Actions.{if_asked};
ghost use Rattle.docket_history.specs.Views.{parties_in, entries_in, count_deadlines, deadline_shown, acts_in, served_in, deadline_at, deadline_of, is_vacated, has_initial, is_served_among, case_shown, named_in, local_name, local_name_in, rule_name_asked};

use crate::standing::StandingCalendar;
use crate::subject::{Subject, local_rule_named};
use court_rules::{Act, DeadlineRule};
use docket_command::{Action, LocalRule, Reply, Text};
use std::marker::Model;

/// What was accepted under a command's key: nothing, the same command with the reply that it had,
/// or another command.
#[derive(Clone, Copy)]
pub enum Kept {
    Fresh,
    Same(Reply),
    Other,
}

/// The acts of a deadline, in order, seen as the list of them.
#[derive(Drop)]
pub struct Acts {
    items: Vec<Act>,
}

impl Model for Acts {
    ghost use Rattle.std.specs.Prelude.{List};
    ghost use Rattle.court_rules.specs.declared.act.Act.{Act};

    ghost Value = { List Act };

    ghost view = { λ a. a.items.items };
}

impl Acts {
    pub fn new(items: Vec<Act>) -> Acts
        ensures { result ≡ items.items }
    {
        Acts { items }
    }

    pub fn as_slice(&self) -> &[Act]
        ensures { result.now ≡ self.now }
    {
        self.items.as_slice()
    }
}

/// A deadline of a case: whose it is (0 for every party's), its rule, whether it is the time for a
/// first answer, and its acts.
#[derive(Drop)]
pub struct DeadlineView {
    pub party: u32,
    pub rule: DeadlineRule,
    pub initial: bool,
    pub acts: Acts,
}

/// The case that a command names, as far as the command asks about it: its number, how many parties,
/// entries and deadlines it has (0 where the command doesn't ask), and the deadline that the command
/// names. Also whether the party that is served with a summons, or whose waiver is filed, has an
/// initial deadline that is not vacated.
#[derive(Drop)]
pub struct CaseView {
    pub number: u32,
    pub parties: u32,
    pub entries: u32,
    pub deadlines: u32,
    pub named: Option<DeadlineView>,
    pub is_served: bool,
}

/// Whether a deadline with these acts is vacated.
fn is_vacated(acts: &[Act]) -> bool
    ensures { result ≡ is_vacated acts.now }
{
    match acts.last() {
        Some(Act::Vacated) => true,
        _ => false,
    }
}

/// Whether the party has an initial deadline that is not vacated.
fn has_initial(deadlines: &[DeadlineView], party: u32) -> bool
    ensures { result ≡ has_initial deadlines.now party }
{
    deadlines.iter().any(|d| d.party == party && (d.initial && !is_vacated(d.acts.as_slice())))
}

/// Whether the party that is served with a summons, or whose waiver is filed, has an initial deadline
/// among these that is not vacated.
pub fn is_served_among(deadlines: &[DeadlineView], action: &Action) -> bool
    ensures { result ≡ is_served_among deadlines.now action.now }
{
    match action {
        Action::ServeSummons(a) => has_initial(deadlines, a.party),
        Action::FileWaiver(a) => has_initial(deadlines, a.party),
        _ => false,
    }
}

/// The deadline of a number, from 1.
fn deadline_at(deadlines: Vec<DeadlineView>, number: u32) -> Option<DeadlineView>
    ensures { result ≡ deadline_at deadlines.items number }
{
    if number == 0 {
        return None;
    }
    deadlines.into_iter().nth(number as usize - 1)
}

/// The deadline that an action names.
fn deadline_of(deadlines: Vec<DeadlineView>, action: &Action) -> Option<DeadlineView>
    ensures { result ≡ deadline_of deadlines.items action.now }
{
    match Subject::of(action).deadline {
        Some(number) => deadline_at(deadlines, number),
        None => None,
    }
}

/// The number if it is asked for, else 0.
fn if_asked(asked: bool, number: u32) -> u32
    ensures { result ≡ if_asked asked number }
{
    if asked { number } else { 0 }
}

impl CaseView {
    /// A case with so many parties and entries, and these deadlines, as an action needs it.
    pub fn new(
        number: u32,
        parties: u32,
        entries: u32,
        deadlines: Vec<DeadlineView>,
        action: &Action,
    ) -> CaseView
        requires { length deadlines.items < 2 ^ 32 }
        ensures { result ≡ case_shown number parties entries deadlines.items action.now }
    {
        let asks = Subject::of(action).asks;
        CaseView {
            number,
            parties: if_asked(asks.parties, parties),
            entries: if_asked(asks.entries, entries),
            deadlines: if_asked(asks.deadlines, deadlines.len() as u32),
            is_served: is_served_among(deadlines.as_slice(), action),
            named: deadline_of(deadlines, action),
        }
    }
}

/// The name of a deadline's rule, where it is a local one.
fn local_name(rule: &DeadlineRule) -> Option<&Text>
    ensures { option_copied result ≡ local_name rule.now }
{
    match rule {
        DeadlineRule::Listed(_) => None,
        DeadlineRule::Local(name) => Some(name),
    }
}

/// The name of the rule of the deadline that is shown of a case, where it is a local one.
fn local_name_in(case: &Option<CaseView>) -> Option<&Text>
    ensures { option_copied result ≡ local_name_in (named_in case.now) }
{
    match case {
        Some(case) => match &case.named {
            Some(deadline) => local_name(&deadline.rule),
            None => None,
        },
        None => None,
    }
}

/// The name of the local rule that an action asks about: the one that it names, or that of the
/// deadline that it extends, which is shown of its case.
pub fn rule_name_asked<'a>(case: &'a Option<CaseView>, action: &'a Action) -> Option<&'a Text>
    ensures { option_copied result ≡ rule_name_asked (named_in case.now) action.now }
{
    match action {
        Action::Extend(_) => local_name_in(case),
        _ => local_rule_named(action),
    }
}

/// What a docket shows about a command, which is what the command asks about. First what was accepted
/// under its key, how many cases there are (0 where it doesn't ask), and whether the label of its new
/// case is in use. Then the case that it names, whether the calendar has the row that it withdraws, and
/// what the calendar's rows enter (nothing where it doesn't ask). Then the number of the next calendar
/// row (0 where it adds none), and the local rule that it names, or that times the deadline that it
/// extends. Last how many local rules there are (0 where it enters none).
#[derive(Drop)]
pub struct View {
    pub under_key: Kept,
    pub cases: u32,
    pub label_taken: bool,
    pub case: Option<CaseView>,
    pub row_stands: bool,
    pub calendar: StandingCalendar,
    pub next_row: u64,
    pub local: Option<LocalRule>,
    pub local_rules: u32,
}

impl View {
    /// How many parties the case has, if the command asks.
    pub fn parties(&self) -> u32
        ensures { result ≡ parties_in self.now.case }
    {
        match &self.case {
            Some(case) => case.parties,
            None => 0,
        }
    }

    /// How many entries the case has, if the command asks.
    pub fn entries(&self) -> u32
        ensures { result ≡ entries_in self.now.case }
    {
        match &self.case {
            Some(case) => case.entries,
            None => 0,
        }
    }

    /// How many deadlines the case has, if the command asks.
    pub fn deadlines(&self) -> u32
        ensures { result ≡ count_deadlines self.now.case }
    {
        match &self.case {
            Some(case) => case.deadlines,
            None => 0,
        }
    }

    /// The deadline that the command names.
    pub fn deadline_named(&self) -> Option<&DeadlineView>
        ensures { option_copied result ≡ deadline_shown self.now }
    {
        match &self.case {
            Some(case) => case.named.as_ref(),
            None => None,
        }
    }

    /// The acts of the deadline that the command names.
    pub fn acts_named(&self) -> &[Act]
        ensures { result.now ≡ acts_in (deadline_shown self.now) }
    {
        match self.deadline_named() {
            Some(deadline) => deadline.acts.as_slice(),
            None => &[],
        }
    }

    /// Whether the party that is served, or whose waiver is filed, has an initial deadline that is not
    /// vacated.
    pub fn is_served(&self) -> bool
        ensures { result ≡ served_in self.now.case }
    {
        match &self.case {
            Some(case) => case.is_served,
            None => false,
        }
    }
}
