//! The words of a line: events, periods and rules.
ghost use Rattle.std.specs.Prelude.{◌≡◌, option_copied};
ghost use Rattle.reason_lines.specs.Words.{listed_event, rule_event, event_word, listed_citation, citation, cited_rule, direction_word, motion_rule, way_words};

use court_days::{Direction, Way};
use court_rules::{DeadlineRule, MotionKind, Period, Rule};
use std::fmt;

/// The event from which the time of a rule of the table is measured.
fn listed_event(rule: Rule) -> &'static str
    ensures { result.now ≡ listed_event rule }
{
    match rule {
        Rule::AnswerToSummons => "summons and complaint served",
        Rule::AnswerAfterWaiver | Rule::AnswerAfterWaiverAbroad => "request for a waiver sent",
        Rule::AnswerToCounterclaim | Rule::MotionToStrike => "pleading served",
        Rule::ReplyToAnswer => "order to reply served",
        Rule::AnswerByUnitedStates => "United States attorney served",
        Rule::AnswerByOfficer => "the later service",
        Rule::AnswerAfterRuling => "notice of the ruling",
        Rule::AnswerAfterStatement => "statement served",
        Rule::MoreDefiniteStatement => "notice of the order",
        Rule::MotionAndNotice | Rule::OpposingAffidavit => "hearing",
        Rule::RenewedMotionForJudgment => "judgment entered, or jury discharged",
        Rule::LosingPartyNewTrial
        | Rule::AmendedFindings
        | Rule::NewTrial
        | Rule::NewTrialByCourt
        | Rule::AmendedJudgment
        | Rule::ReliefFromJudgment => "judgment entered",
        Rule::Ordered => "event",
    }
}

/// The event from which the time of a rule is measured. A local rule does not name it.
fn rule_event(rule: &DeadlineRule) -> &'static str
    ensures { result.now ≡ rule_event rule.now }
{
    match rule {
        DeadlineRule::Listed(rule) => listed_event(*rule),
        DeadlineRule::Local(_) => "event",
    }
}

/// The event, where a rule sets the time.
pub(crate) fn event_word(rule: Option<&DeadlineRule>) -> &'static str
    ensures { result.now ≡ event_word (option_copied rule.entry) }
{
    match rule {
        Some(rule) => rule_event(rule),
        None => "event",
    }
}

/// A rule of the table that sets a period of days or months. A time that the court ordered is
/// counted by 6(a)(1).
fn listed_citation(rule: Rule) -> &'static str
    ensures { result.now ≡ listed_citation rule }
{
    match rule {
        Rule::Ordered => "6(a)(1)",
        _ => rule.name(),
    }
}

/// A rule that sets a period of days or months: a local one is shown by its name.
fn citation(rule: &DeadlineRule) -> &str
    ensures { result.now ≡ citation rule.now }
{
    match rule {
        DeadlineRule::Listed(rule) => listed_citation(*rule),
        DeadlineRule::Local(name) => name.as_str(),
    }
}

/// The rule that sets a period of days or months, or else that by which it is counted.
pub(crate) fn cited_rule(rule: Option<&DeadlineRule>) -> &str
    ensures { result.now ≡ cited_rule (option_copied rule.entry) }
{
    match rule {
        Some(rule) => citation(rule),
        None => "6(a)(1)",
    }
}

/// After the event, or before it.
pub(crate) fn direction_word(direction: Direction) -> &'static str
    ensures { result.now ≡ direction_word direction }
{
    match direction {
        Direction::Forward => "after",
        Direction::Backward => "before",
    }
}

/// So many units.
#[derive(Clone, Copy)]
pub(crate) struct Counted<'a> {
    pub(crate) count: u32,
    pub(crate) one: &'a str,
    pub(crate) many: &'a str,
}

impl fmt::Display for Counted<'_> {
    ghost use Rattle.std.specs.Prelude.{Some};
    ghost use Rattle.reason_lines.specs.Words.{counted_word};

    ghost output = { λ c. Some (counted_word c.count c.one.now c.many.now) };

    fn fmt<W: fmt::Write>(&self, f: &mut fmt::Formatter<W>) -> fmt::Result {
        let count = self.count;
        let one = self.one;
        let many = self.many;
        if count == 1 {
            return write!(f, "{count} {one}");
        }
        write!(f, "{count} {many}")
    }
}

/// How long a period of days or months is.
#[derive(Clone, Copy)]
pub(crate) struct PeriodText(pub(crate) Period);

impl fmt::Display for PeriodText {
    ghost use Rattle.std.specs.Prelude.{Some};
    ghost use Rattle.reason_lines.specs.Words.{period_text};

    ghost output = { λ p. Some (period_text p.0) };

    fn fmt<W: fmt::Write>(&self, f: &mut fmt::Formatter<W>) -> fmt::Result {
        match self.0 {
            Period::Days(count) => Counted {
                count,
                one: "day",
                many: "days",
            }
            .fmt(f),
            Period::Months(count) => Counted {
                count,
                one: "month",
                many: "months",
            }
            .fmt(f),
        }
    }
}

/// The rule of a motion.
pub(crate) fn motion_rule(kind: MotionKind) -> &'static str
    ensures { result.now ≡ motion_rule kind }
{
    match kind {
        MotionKind::B => "12(b)",
        MotionKind::E => "12(e)",
        MotionKind::F => "12(f)",
    }
}

/// How a paper was filed.
pub(crate) fn way_words(way: Way) -> &'static str
    ensures { result.now ≡ way_words way }
{
    match way {
        Way::Electronic => "electronically",
        Way::Office => "at the clerk's office",
    }
}
