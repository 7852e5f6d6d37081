//! Laws of the names and the chains of acts in specs/. Nothing here runs.
ghost use Rattle.std.specs.Prelude.{◌≡◌, ◌<◌, List, [], ◌∷◌, ◌++◌, length, ℕ, true, Some, None};
ghost use Rattle.court_rules.specs.Methods.{method_name, method_named};
ghost use Rattle.court_days.specs.Zone.{ZoneRules};
ghost use Rattle.court_days.specs.Calendar.{Entered};
ghost use Rattle.court_rules.specs.Acts.{is_within, phase_through, acts_ok};
ghost use Rattle.court_rules.specs.Standings.{begins_on_entered_day, AreActs, standing, standing_after, phase_of, may_come, may_begin};
ghost use Rattle.court_rules.specs.Rules.{name_of, rule_named};
ghost use Rattle.court_rules.specs.LocalRules.{is_local_name, IsDeadlineRule, deadline_rule_name, deadline_rule_named};
ghost use Rattle.court_rules.specs.declared.act.Act.{Act};
ghost use Rattle.court_rules.specs.declared.deadline_rule.DeadlineRule.{DeadlineRule};
ghost use Rattle.court_rules.specs.declared.method.Method.{Method};
ghost use Rattle.court_rules.specs.declared.rule.Rule.{Rule};

use crate::order::Phase;

/// The name of a rule names it and no other rule.
pub fn rule_names_read_back()
    ensures named { (rule : Rule) → rule_named (name_of rule) ≡ Some rule }
    ensures name { (text : List ℕ) (rule : Rule) → rule_named text ≡ Some rule → name_of rule ≡ text }
    ensures distinct { (rule other : Rule) → name_of rule ≡ name_of other → rule ≡ other }
{}

/// So does the name of a method.
pub fn method_names_read_back()
    ensures named { (method : Method) → method_named (method_name method) ≡ Some method }
    ensures name { (text : List ℕ) (method : Method)
        → method_named text ≡ Some method → method_name method ≡ text }
    ensures distinct { (method other : Method) → method_name method ≡ method_name other → method ≡ other }
{}

/// No rule of the table has a name that a local rule may have; so the name of a deadline's rule names
/// it and no other.
pub fn deadline_rules_read_back()
    ensures local { (text : List ℕ) → is_local_name text ≡ true → rule_named text ≡ None }
    ensures named { (rule : DeadlineRule) → IsDeadlineRule rule
        → deadline_rule_named (deadline_rule_name rule) ≡ Some rule }
    ensures name { (text : List ℕ) (rule : DeadlineRule)
        → deadline_rule_named text ≡ Some rule → deadline_rule_name rule ≡ text }
    ensures lawful { (text : List ℕ) (rule : DeadlineRule)
        → deadline_rule_named text ≡ Some rule → IsDeadlineRule rule }
{}

/// Where a deadline stands depends on its last act and on where it stood before; the table of lawful
/// orders gives the phase. Lawful acts stay lawful with an act that may come next.
pub fn acts_go_on()
    ensures step { (zone : ZoneRules) (entered : Entered) (acts : List Act) (act : Act)
        → standing zone entered (acts ++ act ∷ []) ≡ standing_after zone entered (standing zone entered acts) act }
    ensures table { (zone : ZoneRules) (entered : Entered) (acts : List Act) → acts_ok acts ≡ true
        → phase_through Phase.Unmade acts ≡ Some (phase_of (standing zone entered acts)) }
    ensures first { (zone : ZoneRules) (act : Act)
        → is_within act ≡ true → begins_on_entered_day zone act ≡ true → may_begin act ≡ true
        → AreActs zone (act ∷ []) }
    ensures next { (zone : ZoneRules) (entered : Entered) (acts : List Act) (act : Act)
        → AreActs zone acts → length acts < 100
        → is_within act ≡ true → begins_on_entered_day zone act ≡ true
        → may_come (standing zone entered acts) act ≡ true
        → AreActs zone (acts ++ act ∷ []) }
{}
