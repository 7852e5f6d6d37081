//! The rules that set a time.
ghost use Rattle.std.specs.Prelude.{◌≡◌, ◌≢◌, ◌↔◌, IsNone, Some, slice_get, find, bytes_eq, IfSome, IfNone};
ghost use Rattle.std.specs.Option.{option_map};
ghost use Rattle.court_rules.specs.Rules.{rules, entry_of, name_of, period_of, direction_of, adds_three, is_responsive, is_extendable, rule_named, IsPeriod};
ghost use Rattle.court_rules.specs.Rows.{entry_in};

use crate::method::Method;
use crate::table::{Period, RuleRow, rows};
use court_days::Direction;

/// A rule of the Federal Rules of Civil Procedure that sets a time, or a time that the court ordered.
#[derive(Clone, Copy, PartialEq, Eq)]
pub enum Rule {
    /// The answer of a defendant who was served with the summons and complaint.
    AnswerToSummons,
    /// The answer of a defendant who waived service.
    AnswerAfterWaiver,
    /// The same where the request was sent outside any judicial district.
    AnswerAfterWaiverAbroad,
    /// The answer to a counterclaim or crossclaim.
    AnswerToCounterclaim,
    /// The reply to an answer, where the court ordered one.
    ReplyToAnswer,
    /// The answer of the United States, its agencies, and officers sued in official capacity.
    AnswerByUnitedStates,
    /// The answer of a United States officer or employee who was sued individually.
    AnswerByOfficer,
    /// The answer after a rule 12 motion was denied or postponed until trial.
    AnswerAfterRuling,
    /// The answer after a more definite statement was served.
    AnswerAfterStatement,
    /// The more definite statement that the court ordered.
    MoreDefiniteStatement,
    /// The motion to strike a pleading that allows no response.
    MotionToStrike,
    /// A motion and the notice of its hearing.
    MotionAndNotice,
    /// An affidavit that opposes a motion.
    OpposingAffidavit,
    /// The renewed motion for judgment as a matter of law.
    RenewedMotionForJudgment,
    /// The new-trial motion of a party against whom judgment as a matter of law was rendered.
    LosingPartyNewTrial,
    /// The motion for amended or additional findings.
    AmendedFindings,
    /// The motion for a new trial.
    NewTrial,
    /// The court's own order for a new trial.
    NewTrialByCourt,
    /// The motion to alter or amend a judgment.
    AmendedJudgment,
    /// The motion for relief from a judgment.
    ReliefFromJudgment,
    /// A time that the court ordered, whose period and direction are as entered.
    Ordered,
}

/// The rule of the row with that name.
fn rule_in(rows: &[RuleRow], name: &str) -> Option<Rule>
    ensures { result ≡ option_map (λ row. row.rule) (find (λ row. bytes_eq row.name.now name.now) rows.now) }
{
    rows.iter().find(|row| row.name == name).map(|row| row.rule)
}

impl Rule {
    /// The rule of that name, as `12(a)(1)(A)(i)` or `order`.
    pub fn read(text: &str) -> Option<Rule>
        ensures value { result ≡ rule_named text.now }
        ensures found { IfSome result (λ rule. name_of rule ≡ text.now) }
        ensures none { IfNone result ((rule : Rule) → name_of rule ≢ text.now) }
    {
        rule_in(rows(), text)
    }

    /// Where the rule stands in the table.
    #[tactic(auto, unfolding(crate::specs::Rules::rules))]
    fn place(self) -> usize
        ensures { slice_get rules result ≡ Some self }
    {
        self as usize
    }

    /// The rule's row of the table.
    fn row(self) -> &'static RuleRow
        ensures { entry_in result.now ≡ entry_of self }
    {
        &rows()[self.place()]
    }

    /// The name that `read` reads.
    pub fn name(self) -> &'static str
        ensures { result.now ≡ name_of self }
    {
        self.row().name
    }

    /// How long the time is, if it is not as entered.
    pub fn period(self) -> Option<Period>
        ensures value { result ≡ period_of self }
        ensures limits { IfSome result IsPeriod }
        ensures none { IsNone result ↔ (self ≡ Rule.Ordered) }
    {
        self.row().period
    }

    /// Which way the time is counted, if it is not as entered.
    pub fn direction(self) -> Option<Direction>
        ensures value { result ≡ direction_of self }
        ensures none { IsNone result ↔ (self ≡ Rule.Ordered) }
    {
        self.row().direction
    }

    /// Whether service by this method adds three days to the time (Fed. R. Civ. P. 6(d)).
    pub fn adds_three(self, method: Method) -> bool
        ensures { result ≡ adds_three self method }
    {
        self.row().three_days && method.gives_additional_time()
    }

    /// Whether it is the time of a responsive pleading, which a rule 12 motion suspends
    /// (Fed. R. Civ. P. 12(a)(4)).
    pub fn responsive(self) -> bool
        ensures { result ≡ is_responsive self }
    {
        self.row().responsive
    }

    /// Whether the court may extend the time (Fed. R. Civ. P. 6(b)(2)).
    pub fn extendable(self) -> bool
        ensures { result ≡ is_extendable self }
    {
        self.row().extendable
    }
}
