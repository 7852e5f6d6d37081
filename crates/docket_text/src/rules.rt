//! The text of the rules by which a deadline may run.
ghost use Rattle.std.specs.Prelude.{◌≡◌, ◌++◌, IfOk, OnOk, string_bytes};
ghost use Rattle.std.specs.List.{flat_map};
ghost use Rattle.court_rules.specs.Rows.{entry_in};
ghost use Rattle.docket_text.specs.RuleTexts.{direction_text, flag_text, local_line, rule_line, rules_text};

use crate::column::{Left, Number};
use court_days::Direction;
use court_rules::{Period, RuleRow, rule_rows};
use docket_command::Word;
use docket_history::LocalRuleRow;
use std::alloc::{AllocError, Global};
use std::fmt;

/// How long a time is, or dashes where that is as entered.
#[derive(Clone, Copy)]
struct PeriodColumns(Option<Period>);

impl fmt::Display for PeriodColumns {
    ghost use Rattle.std.specs.Prelude.{Some};
    ghost use Rattle.docket_text.specs.RuleTexts.{period_columns};

    ghost output = { λ columns. Some (period_columns columns.0) };

    fn fmt<W: fmt::Write>(&self, f: &mut fmt::Formatter<W>) -> fmt::Result {
        match self.0 {
            Some(Period::Days(number)) => {
                let count = Number { width: 4, number };
                write!(f, "{count} days  ")
            }
            Some(Period::Months(number)) => {
                let count = Number { width: 4, number };
                write!(f, "{count} months")
            }
            None => f.write_str("   - -     "),
        }
    }
}

/// Which way a time is counted, or a dash where that is as entered.
fn direction_text(direction: Option<Direction>) -> &'static str
    ensures { result.now ≡ direction_text direction }
{
    match direction {
        Some(direction) => direction.word(),
        None => "-",
    }
}

/// The word where it holds of a rule, or else a dash.
fn flag_text(word: &'static str, holds: bool) -> &'static str
    ensures { result.now ≡ flag_text word.now holds }
{
    if holds { word } else { "-" }
}

/// The line of a rule, of the table or of the court's own.
#[derive(Clone, Copy)]
struct RuleLine<'a> {
    name: &'a str,
    period: Option<Period>,
    direction: Option<Direction>,
    three_days: bool,
    responsive: bool,
    extendable: bool,
}

impl fmt::Display for RuleLine<'_> {
    ghost use Rattle.std.specs.Prelude.{Some};
    ghost use Rattle.docket_text.specs.RuleTexts.{rule_line};

    ghost output = { λ text. Some (rule_line (record {
      name = text.name.now;
      period = text.period;
      direction = text.direction;
      three_days = text.three_days;
      responsive = text.responsive;
      extendable = text.extendable;
    })) };

    fn fmt<W: fmt::Write>(&self, f: &mut fmt::Formatter<W>) -> fmt::Result {
        let name = Left {
            width: 16,
            text: self.name,
        };
        let period = PeriodColumns(self.period);
        let direction = Left {
            width: 8,
            text: direction_text(self.direction),
        };
        let three_days = Left {
            width: 10,
            text: flag_text("three days", self.three_days),
        };
        let responsive = Left {
            width: 10,
            text: flag_text("responsive", self.responsive),
        };
        let extendable = flag_text("extendable", self.extendable);
        writeln!(
            f,
            "{name} {period} {direction} {three_days} {responsive} {extendable}"
        )
    }
}

/// Adds the line of each row of the table.
fn push_table(text: &mut String, rows: &[RuleRow]) -> Result<(), AllocError>
    ensures { OnOk result (string_bytes text.new ≡ string_bytes text.old ++ flat_map (λ row. rule_line (entry_in row).1) rows.now) }
{
    for row in rows {
        let line = RuleLine {
            name: row.name,
            period: row.period,
            direction: row.direction,
            three_days: row.three_days,
            responsive: row.responsive,
            extendable: row.extendable,
        };
        write!(text, "{line}")?;
    }
    Ok(())
}

/// Adds the line of each local rule.
fn push_local_rules(text: &mut String, rows: &[LocalRuleRow]) -> Result<(), AllocError>
    ensures { OnOk result (string_bytes text.new ≡ string_bytes text.old ++ flat_map (λ row. rule_line (local_line row.rule)) rows.now) }
{
    for row in rows {
        let rule = &row.rule;
        let line = RuleLine {
            name: rule.name.as_str(),
            period: Some(Period::Days(rule.days)),
            direction: Some(rule.direction),
            three_days: rule.three,
            responsive: false,
            extendable: rule.extendable,
        };
        write!(text, "{line}")?;
    }
    Ok(())
}

/// The rules by which a deadline may run: a line for each of the table, and behind them one for each local
/// rule, in the order in which they are given.
///
/// A line has the name on the left of 16 bytes, the period on the right of 4 and its unit (`days`, `months`)
/// on the left of 6. Then come the direction (`forward`, `backward`) on the left of 8, and `three days`,
/// `responsive` and `extendable` where they hold, separated by spaces. A dash shows what does not hold, and
/// a period and a direction that are as entered.
#[tactic(auto, using(crate::proofs::RuleLemmas::lined))]
pub fn rules_text(alloc: Global, local_rules: &[LocalRuleRow]) -> Result<String, AllocError>
    ensures { IfOk result (λ text. string_bytes text ≡ rules_text local_rules.now) }
{
    let mut text = String::new(alloc);
    push_table(&mut text, rule_rows())?;
    push_local_rules(&mut text, local_rules)?;
    Ok(text)
}
