//! What the guard keeps from a docket that is served, with nothing to run.
ghost use Rattle.std.specs.Prelude.{◌≡◌, IfSome};
ghost use Rattle.court_days.specs.Court.{CourtSettings};
ghost use Rattle.docket_history.specs.Histories.{History};
ghost use Rattle.http_request.specs.Request.{IsLetThrough};
ghost use Rattle.http_request.specs.declared.page.Routes.{Routes};
ghost use Rattle.docket_serving.specs.Exchanges.{Exchange};
ghost use Rattle.docket_serving.specs.Serving.{IsNext};

/// A connection leads a docket to another history only where the guard lets its request through.
pub fn who_changes_a_docket_is_let_through()
    ensures { (routes : Routes) (court : CourtSettings) (h next : History) (e : Exchange)
        → IsNext routes court h e next → ¬ (next ≡ h) → IfSome e.input (IsLetThrough routes) }
{}
