//! The table of the court's own rules.
ghost use Rattle.std.specs.Prelude.{◌≡◌, ◌++◌, ◌∷◌, [], List, Ok, true, false, length};
ghost use Rattle.court_rules.specs.LocalRules.{is_local_rule};
ghost use Rattle.docket_history.specs.declared.row.LocalRuleRow.{LocalRuleRow as Entered};
ghost use Rattle.docket_sound.specs.LocalRules.{AreSoundLocalRules, HasTakenLocalRules, may_follow};

use crate::known_texts::KnownTexts;
use court_days::Direction;
use court_rules::is_local_name;
use docket_command::LocalRule;
use docket_history::LocalRuleRow;
use std::alloc::{AllocError, Global};

/// How many local rules there are at most.
const MOST_RULES: u32 = 1000;

/// Whether a court may have the rule: it has the name of one, 1 to 3,650 days, and three days more for
/// service only where it counts forward (Fed. R. Civ. P. 6(d)).
#[tactic(auto, unfolding(court_rules::specs::LocalRules::is_local_rule))]
pub fn is_local_rule(rule: &LocalRule) -> bool
    ensures { result ≡ is_local_rule rule.now }
{
    is_local_name(rule.name.as_str())
        && (1..=3650).contains(&rule.days)
        && (!rule.three || matches!(rule.direction, Direction::Forward))
}

/// The check of the local rules. It keeps their names.
#[derive(Drop)]
pub struct LocalRuleCheck {
    pub(crate) count: u32,
    pub(crate) names: KnownTexts,
}

impl LocalRuleCheck {
    /// It takes no memory yet.
    pub fn new(alloc: Global) -> LocalRuleCheck
        ensures { HasTakenLocalRules result [] }
    {
        LocalRuleCheck {
            count: 0,
            names: KnownTexts::new(alloc),
        }
    }

    /// Whether the rule may come next: it has the next number, there is room for it, and no rule has
    /// its name.
    fn may_follow(&self, row: &LocalRuleRow) -> bool
        ensures { result ≡ may_follow self.now row.now }
    {
        self.count < MOST_RULES
            && row.number == self.count + 1
            && is_local_rule(&row.rule)
            && !self.names.has(&row.rule.name)
    }

    /// Takes the next row, unless the table is unsound by it.
    pub fn take(&mut self, alloc: Global, row: &LocalRuleRow) -> Result<bool, AllocError>
        ensures taken { (rows : List Entered) → HasTakenLocalRules self.old rows → result ≡ Ok true
            → HasTakenLocalRules self.new (rows ++ row.now ∷ []) }
        ensures refused { (rows more : List Entered) → HasTakenLocalRules self.old rows → result ≡ Ok false
            → AreSoundLocalRules (rows ++ row.now ∷ more) → ⊥ }
    {
        if !self.may_follow(row) {
            return Ok(false);
        }
        self.names.put(alloc, row.rule.name.as_str())?;
        self.count += 1;
        Ok(true)
    }

    /// How many local rules there are.
    pub fn local_rules(&self) -> u32
        ensures { (rows : List Entered) → HasTakenLocalRules self.now rows → result ≡ length rows }
    {
        self.count
    }
}
