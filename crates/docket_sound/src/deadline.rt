//! The table of deadlines.
ghost use Rattle.std.specs.Prelude.{◌≡◌, ◌++◌, ◌∷◌, [], List, true, false, ◌&&◌, IfOk};
ghost use Rattle.docket_history.specs.declared.row.DeadlineRow.{DeadlineRow as Deadline};
ghost use Rattle.docket_sound.specs.Deadlines.{is_made_by, is_deadline_rule, may_be_initial, is_always_initial, is_sound_deadline, has_party, deadline_key, AreSoundDeadlines, HasTakenDeadlines, deadlines_checked, parties_of, rules_standing};
ghost use Rattle.docket_sound.specs.KnownTexts.{is_known};

use crate::known_texts::KnownTexts;
use crate::numbering::{Key, Numbering};
use court_rules::{DeadlineRule, Rule};
use docket_history::DeadlineRow;
use std::alloc::{AllocError, Global};

/// How many deadlines a case has at most.
const MOST_DEADLINES: u32 = 1000;

/// Whether a deadline may be made with the rule: a time under Fed. R. Civ. P. 12(a)(4) begins again by an
/// act.
fn is_made_by(rule: Rule) -> bool
    ensures { result ≡ is_made_by rule }
{
    !matches!(rule, Rule::AnswerAfterRuling | Rule::AnswerAfterStatement)
}

/// Whether a deadline may have the rule: a local one is one of those.
fn is_deadline_rule(names: &KnownTexts, rule: &DeadlineRule) -> bool
    ensures { result ≡ is_deadline_rule (is_known names.now) rule.now }
{
    match rule {
        DeadlineRule::Listed(rule) => is_made_by(*rule),
        DeadlineRule::Local(name) => names.has(name),
    }
}

/// Whether a deadline of the rule may be an initial one.
fn may_be_initial(rule: &DeadlineRule) -> bool
    ensures { result ≡ may_be_initial rule.now }
{
    match rule {
        DeadlineRule::Listed(rule) => matches!(
            rule,
            Rule::AnswerToSummons
                | Rule::AnswerAfterWaiver
                | Rule::AnswerAfterWaiverAbroad
                | Rule::AnswerByUnitedStates
                | Rule::AnswerByOfficer
        ),
        DeadlineRule::Local(_) => false,
    }
}

/// Whether each deadline of the rule is an initial one.
fn is_always_initial(rule: &DeadlineRule) -> bool
    ensures { result ≡ is_always_initial rule.now }
{
    match rule {
        DeadlineRule::Listed(rule) => matches!(
            rule,
            Rule::AnswerToSummons | Rule::AnswerAfterWaiver | Rule::AnswerAfterWaiverAbroad
        ),
        DeadlineRule::Local(_) => false,
    }
}

/// Whether the values of the deadline are within their limits, by the names of the local rules.
fn is_sound_deadline(names: &KnownTexts, row: &DeadlineRow) -> bool
    ensures { result ≡ is_sound_deadline (is_known names.now) row.now }
{
    is_deadline_rule(names, &row.rule)
        && if row.initial {
            may_be_initial(&row.rule)
        } else {
            !is_always_initial(&row.rule)
        }
}

/// Whether the party is 0, for every party, or one of its case.
fn has_party(parties: &Numbering, row: &DeadlineRow) -> bool
    ensures { result ≡ has_party (parties_of parties.now) row.now }
{
    match parties.count(row.case) {
        Some(count) => row.party <= count,
        None => row.party == 0,
    }
}

/// Whether the values of the deadline are within their limits, and its party is there.
fn is_within(parties: &Numbering, names: &KnownTexts, row: &DeadlineRow) -> bool
    ensures { result ≡ (is_sound_deadline (is_known names.now) row.now && has_party (parties_of parties.now) row.now) }
{
    is_sound_deadline(names, row) && has_party(parties, row)
}

fn deadline_key(row: &DeadlineRow) -> Key
    ensures { result ≡ deadline_key row.now }
{
    Key {
        case: row.case,
        number: row.number,
    }
}

/// The check of the deadlines of so many cases, each of which has so many parties, by the names of the
/// local rules.
#[derive(Drop)]
pub struct DeadlineCheck {
    pub(crate) parties: Numbering,
    pub(crate) names: KnownTexts,
    pub(crate) numbering: Numbering,
}

impl DeadlineCheck {
    /// A deadline's local rule must be one of those names.
    pub fn new(
        alloc: Global,
        cases: u32,
        parties: Numbering,
        names: KnownTexts,
    ) -> Result<DeadlineCheck, AllocError>
        ensures none { IfOk result (λ check. HasTakenDeadlines check []) }
        ensures cases { IfOk result (λ check. deadlines_checked check ≡ cases) }
        ensures parties { IfOk result (λ check. check.parties ≡ parties) }
        ensures names { IfOk result (λ check. rules_standing check ≡ is_known names) }
    {
        Ok(DeadlineCheck {
            parties,
            names,
            numbering: Numbering::new(alloc, cases, MOST_DEADLINES)?,
        })
    }

    /// Takes the next row, unless the table is unsound by it.
    pub fn take(&mut self, row: &DeadlineRow) -> bool
        ensures taken { (rows : List Deadline) → HasTakenDeadlines self.old rows → result ≡ true
            → HasTakenDeadlines self.new (rows ++ row.now ∷ []) }
        ensures refused { (rows more : List Deadline) → HasTakenDeadlines self.old rows → result ≡ false
            → AreSoundDeadlines (deadlines_checked self.old) (parties_of self.old.parties) (rules_standing self.old) (rows ++ row.now ∷ more) → ⊥ }
        ensures cases { deadlines_checked self.new ≡ deadlines_checked self.old }
        ensures parties { self.new.parties ≡ self.old.parties }
        ensures names { rules_standing self.new ≡ rules_standing self.old }
    {
        if !is_within(&self.parties, &self.names, row) {
            return false;
        }
        self.numbering.take(deadline_key(row))
    }

    /// How many parties each case has, as it was given, and how many deadlines.
    pub fn finish(self) -> (Numbering, Numbering)
        ensures parties { result.0 ≡ self.parties }
        ensures deadlines { result.1 ≡ self.numbering }
    {
        (self.parties, self.numbering)
    }
}
