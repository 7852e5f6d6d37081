//! What each rule is about.
ghost use Rattle.std.specs.Prelude.{◌≡◌};
ghost use Rattle.html_sheets.specs.RuleWords.{rule_words};

use crate::piece::Told;
use court_rules::Rule;
use std::fmt;

/// What a rule is about, for people who do not know it by its number.
fn rule_words(rule: Rule) -> &'static str
    ensures { result.now ≡ rule_words rule }
{
    match rule {
        Rule::AnswerToSummons => "answer to the complaint",
        Rule::AnswerAfterWaiver => "answer after a waiver",
        Rule::AnswerAfterWaiverAbroad => "answer after a waiver from abroad",
        Rule::AnswerToCounterclaim => "answer to a counterclaim or crossclaim",
        Rule::ReplyToAnswer => "reply to an answer",
        Rule::AnswerByUnitedStates => "answer of the United States",
        Rule::AnswerByOfficer => "answer of a federal officer",
        Rule::AnswerAfterRuling => "answer after a ruling",
        Rule::AnswerAfterStatement => "answer to a more definite statement",
        Rule::MoreDefiniteStatement => "more definite statement",
        Rule::MotionToStrike => "motion to strike",
        Rule::MotionAndNotice => "motion and notice of hearing",
        Rule::OpposingAffidavit => "opposing affidavit",
        Rule::RenewedMotionForJudgment => "renewed motion for judgment",
        Rule::LosingPartyNewTrial => "motion of the losing party for a new trial",
        Rule::AmendedFindings => "motion for amended findings",
        Rule::NewTrial => "motion for a new trial",
        Rule::NewTrialByCourt => "order of the court for a new trial",
        Rule::AmendedJudgment => "motion to amend the judgment",
        Rule::ReliefFromJudgment => "motion for relief from the judgment",
        Rule::Ordered => "time set by the court",
    }
}

/// A rule by its name, as a text that is not within a page. One of the table has its words before it.
#[derive(Clone, Copy)]
pub struct RuleText<'a>(pub &'a str);

impl fmt::Display for RuleText<'_> {
    ghost use Rattle.std.specs.Prelude.{Some};
    ghost use Rattle.html_sheets.specs.RuleWords.{rule_text};

    ghost output = { λ rule. Some (rule_text rule.0.now) };

    fn fmt<W: fmt::Write>(&self, f: &mut fmt::Formatter<W>) -> fmt::Result {
        let name = self.0;
        match Rule::read(name) {
            Some(rule) => {
                let words = rule_words(rule);
                write!(f, "{words}, {name}")
            }
            None => f.write_str(name),
        }
    }
}

/// A rule by its name, within a page. One of the table has its words before it.
#[derive(Clone, Copy)]
pub(crate) struct RuleTold<'a>(pub(crate) &'a str);

impl fmt::Display for RuleTold<'_> {
    ghost use Rattle.std.specs.Prelude.{Some};
    ghost use Rattle.html_sheets.specs.RuleWords.{rule_told};

    ghost output = { λ rule. Some (rule_told rule.0.now) };

    fn fmt<W: fmt::Write>(&self, f: &mut fmt::Formatter<W>) -> fmt::Result {
        let name = Told(self.0);
        match Rule::read(self.0) {
            Some(rule) => {
                let words = rule_words(rule);
                write!(f, "{words}, {name}")
            }
            None => name.fmt(f),
        }
    }
}
