//! The table of the rules.
ghost use Rattle.std.specs.Prelude.{◌≡◌, map};
ghost use Rattle.court_rules.specs.Rules.{rules, entry_of};
ghost use Rattle.court_rules.specs.Rows.{entry_in};

use crate::rule::Rule;
use court_days::Direction;

/// How long a time is.
#[derive(Clone, Copy, PartialEq, Eq)]
pub enum Period {
    Days(u32),
    Months(u32),
}

/// A rule with its name and the time that it sets. Period and direction are None where they are as
/// entered.
pub struct RuleRow {
    pub rule: Rule,
    pub name: &'static str,
    pub period: Option<Period>,
    pub direction: Option<Direction>,
    /// Whether service by mail, with the clerk or by other means adds three days.
    pub three_days: bool,
    /// Whether it is the time of a responsive pleading, which a rule 12 motion suspends.
    pub responsive: bool,
    /// Whether the court may extend it.
    pub extendable: bool,
}

/// The rows of all rules, in the order in which `Rule` names them.
pub fn rows() -> &'static [RuleRow]
    ensures { map entry_in result.now ≡ map entry_of rules }
{
    &RULES
}

static RULES: [RuleRow; 21] = [
    RuleRow {
        rule: Rule::AnswerToSummons,
        name: "12(a)(1)(A)(i)",
        period: Some(Period::Days(21)),
        direction: Some(Direction::Forward),
        three_days: false,
        responsive: true,
        extendable: true,
    },
    RuleRow {
        rule: Rule::AnswerAfterWaiver,
        name: "12(a)(1)(A)(ii)",
        period: Some(Period::Days(60)),
        direction: Some(Direction::Forward),
        three_days: false,
        responsive: true,
        extendable: true,
    },
    RuleRow {
        rule: Rule::AnswerAfterWaiverAbroad,
        name: "12(a)(1)(A)(ii)*",
        period: Some(Period::Days(90)),
        direction: Some(Direction::Forward),
        three_days: false,
        responsive: true,
        extendable: true,
    },
    RuleRow {
        rule: Rule::AnswerToCounterclaim,
        name: "12(a)(1)(B)",
        period: Some(Period::Days(21)),
        direction: Some(Direction::Forward),
        three_days: true,
        responsive: true,
        extendable: true,
    },
    RuleRow {
        rule: Rule::ReplyToAnswer,
        name: "12(a)(1)(C)",
        period: Some(Period::Days(21)),
        direction: Some(Direction::Forward),
        three_days: true,
        responsive: true,
        extendable: true,
    },
    RuleRow {
        rule: Rule::AnswerByUnitedStates,
        name: "12(a)(2)",
        period: Some(Period::Days(60)),
        direction: Some(Direction::Forward),
        three_days: true,
        responsive: true,
        extendable: true,
    },
    RuleRow {
        rule: Rule::AnswerByOfficer,
        name: "12(a)(3)",
        period: Some(Period::Days(60)),
        direction: Some(Direction::Forward),
        three_days: true,
        responsive: true,
        extendable: true,
    },
    RuleRow {
        rule: Rule::AnswerAfterRuling,
        name: "12(a)(4)(A)",
        period: Some(Period::Days(14)),
        direction: Some(Direction::Forward),
        three_days: false,
        responsive: true,
        extendable: true,
    },
    RuleRow {
        rule: Rule::AnswerAfterStatement,
        name: "12(a)(4)(B)",
        period: Some(Period::Days(14)),
        direction: Some(Direction::Forward),
        three_days: true,
        responsive: true,
        extendable: true,
    },
    RuleRow {
        rule: Rule::MoreDefiniteStatement,
        name: "12(e)",
        period: Some(Period::Days(14)),
        direction: Some(Direction::Forward),
        three_days: false,
        responsive: false,
        extendable: true,
    },
    RuleRow {
        rule: Rule::MotionToStrike,
        name: "12(f)(2)",
        period: Some(Period::Days(21)),
        direction: Some(Direction::Forward),
        three_days: true,
        responsive: false,
        extendable: true,
    },
    RuleRow {
        rule: Rule::MotionAndNotice,
        name: "6(c)(1)",
        period: Some(Period::Days(14)),
        direction: Some(Direction::Backward),
        three_days: false,
        responsive: false,
        extendable: true,
    },
    RuleRow {
        rule: Rule::OpposingAffidavit,
        name: "6(c)(2)",
        period: Some(Period::Days(7)),
        direction: Some(Direction::Backward),
        three_days: false,
        responsive: false,
        extendable: true,
    },
    RuleRow {
        rule: Rule::RenewedMotionForJudgment,
        name: "50(b)",
        period: Some(Period::Days(28)),
        direction: Some(Direction::Forward),
        three_days: false,
        responsive: false,
        extendable: false,
    },
    RuleRow {
        rule: Rule::LosingPartyNewTrial,
        name: "50(d)",
        period: Some(Period::Days(28)),
        direction: Some(Direction::Forward),
        three_days: false,
        responsive: false,
        extendable: false,
    },
    RuleRow {
        rule: Rule::AmendedFindings,
        name: "52(b)",
        period: Some(Period::Days(28)),
        direction: Some(Direction::Forward),
        three_days: false,
        responsive: false,
        extendable: false,
    },
    RuleRow {
        rule: Rule::NewTrial,
        name: "59(b)",
        period: Some(Period::Days(28)),
        direction: Some(Direction::Forward),
        three_days: false,
        responsive: false,
        extendable: false,
    },
    RuleRow {
        rule: Rule::NewTrialByCourt,
        name: "59(d)",
        period: Some(Period::Days(28)),
        direction: Some(Direction::Forward),
        three_days: false,
        responsive: false,
        extendable: false,
    },
    RuleRow {
        rule: Rule::AmendedJudgment,
        name: "59(e)",
        period: Some(Period::Days(28)),
        direction: Some(Direction::Forward),
        three_days: false,
        responsive: false,
        extendable: false,
    },
    RuleRow {
        rule: Rule::ReliefFromJudgment,
        name: "60(b)",
        period: Some(Period::Months(12)),
        direction: Some(Direction::Forward),
        three_days: false,
        responsive: false,
        extendable: false,
    },
    RuleRow {
        rule: Rule::Ordered,
        name: "order",
        period: None,
        direction: None,
        three_days: true,
        responsive: false,
        extendable: true,
    },
];
