//! The rules of deadlines.
ghost use Rattle.std.specs.Prelude.{◌≡◌, IfOk};
ghost use Rattle.court_rules.specs.LocalRules.{deadline_rule_name, deadline_rule_named};

use crate::local_rule::is_local_name;
use crate::rule::Rule;
use crate::text::Text;
use std::alloc::{AllocError, Global};

/// The rule of a deadline: one of the table, or one of the court's own, by its name.
#[derive(Clone, PartialEq, Drop)]
pub enum DeadlineRule {
    Listed(Rule),
    Local(Text),
}

impl DeadlineRule {
    /// The name of the rule.
    pub fn name(&self) -> &str
        ensures { result.now ≡ deadline_rule_name self.now }
    {
        match self {
            DeadlineRule::Listed(rule) => rule.name(),
            DeadlineRule::Local(name) => name.as_str(),
        }
    }

    /// The rule of that name: one of the table, or else a local one, if it may have that name.
    pub fn named(alloc: Global, text: &str) -> Result<Option<DeadlineRule>, AllocError>
        ensures { IfOk result (λ found. found ≡ deadline_rule_named text.now) }
    {
        match Rule::read(text) {
            Some(rule) => return Ok(Some(DeadlineRule::Listed(rule))),
            None => {}
        }
        if is_local_name(text) {
            return Ok(Some(DeadlineRule::Local(Text::from_str(alloc, text)?)));
        }
        Ok(None)
    }

    /// The same rule again.
    pub fn copied(&self) -> Result<DeadlineRule, AllocError>
        ensures { IfOk result (λ copy. copy ≡ self.now) }
    {
        self.clone()
    }
}
