//! Laws between the definitions, with no code to run.
ghost use Rattle.std.specs.Prelude.{◌≡◌, false, None, Some};
ghost use Rattle.count_lines.specs.Answers.{CourtState, outcome_of};
ghost use Rattle.count_lines.specs.declared.request.Request.{Request};
ghost use Rattle.court_days.specs.Court.{zone_of};
ghost use Rattle.court_rules.specs.Standings.{end_of_start};
ghost use Rattle.court_rules.specs.declared.act.Start.{Start as Begun};
ghost use Rattle.explain_lines.specs.Explained.{start_of};
ghost use Rattle.explain_lines.specs.Ends.{end_answer, is_end};

/// A request is answered by reasons exactly where `count` answers an end: the steps are those of
/// that same period, and nothing is entered.
pub fn ends_are_those_of_count()
    ensures told { (state : CourtState) (request : Request) (begun : Begun)
        → start_of (zone_of state.court) request ≡ Some begun
        → outcome_of state (Some request)
        ≡ (end_answer (zone_of state.court) (end_of_start (zone_of state.court) state.calendar begun), state) }
    ensures untold { (state : CourtState) (request : Request)
        → start_of (zone_of state.court) request ≡ None
        → is_end (outcome_of state (Some request)).0 ≡ false }
{}
