//! Laws of the functions in specs/. Nothing here runs.
ghost use Rattle.std.specs.Prelude.{◌≡◌, ◌↔◌, Some, true};
ghost use Rattle.court_rules.specs.calendar.DayKind.{DayKind};
ghost use Rattle.court_rules.specs.calendar.Direction.{Direction};
ghost use Rattle.court_rules.specs.filing.Way.{Way};
ghost use Rattle.docket_command.specs.declared.choice.Basis.{Basis};
ghost use Rattle.docket_command.specs.declared.choice.PeriodUnit.{PeriodUnit};
ghost use Rattle.docket_command.specs.declared.choice.PleadingKind.{PleadingKind};
ghost use Rattle.docket_command.specs.declared.choice.Role.{Role};
ghost use Rattle.docket_command.specs.declared.choice.Ruling.{Ruling};
ghost use Rattle.docket_command.specs.declared.choice.ServiceMethod.{ServiceMethod};
ghost use Rattle.docket_command.specs.declared.choice.Sovereign.{Sovereign};
ghost use Rattle.docket_command.specs.declared.command.Command.{Command};
ghost use Rattle.docket_command.specs.declared.command_name.CommandName.{CommandName};
ghost use Rattle.court_rules.specs.declared.act.MotionKind.{MotionKind};
ghost use Rattle.docket_command.specs.Names.{command_word, command_named};
ghost use Rattle.docket_command.specs.Sameness.{is_same_command};
ghost use Rattle.docket_command.specs.Words.{basis_word, basis_named, day_kind_word, day_kind_named, direction_word, direction_named, motion_kind_word, motion_kind_named, period_unit_word, period_unit_named, pleading_kind_word, pleading_kind_named, role_word, role_named, ruling_word, ruling_named, service_method_word, service_method_named, sovereign_word, sovereign_named, way_word, way_named};

/// Each word reads back as the one value whose word it is.
pub fn words_are_read_back()
    ensures commands { (x : CommandName) → command_named (command_word x) ≡ Some x }
    ensures bases { (x : Basis) → basis_named (basis_word x) ≡ Some x }
    ensures day_kinds { (x : DayKind) → day_kind_named (day_kind_word x) ≡ Some x }
    ensures directions { (x : Direction) → direction_named (direction_word x) ≡ Some x }
    ensures methods { (x : ServiceMethod) → service_method_named (service_method_word x) ≡ Some x }
    ensures motions { (x : MotionKind) → motion_kind_named (motion_kind_word x) ≡ Some x }
    ensures pleadings { (x : PleadingKind) → pleading_kind_named (pleading_kind_word x) ≡ Some x }
    ensures roles { (x : Role) → role_named (role_word x) ≡ Some x }
    ensures rulings { (x : Ruling) → ruling_named (ruling_word x) ≡ Some x }
    ensures sovereigns { (x : Sovereign) → sovereign_named (sovereign_word x) ≡ Some x }
    ensures units { (x : PeriodUnit) → period_unit_named (period_unit_word x) ≡ Some x }
    ensures ways { (x : Way) → way_named (way_word x) ≡ Some x }
{}

/// Sameness, field by field, is equality.
pub fn commands_are_told_apart()
    ensures { (c d : Command) → (is_same_command c d ≡ true) ↔ (c ≡ d) }
{}
