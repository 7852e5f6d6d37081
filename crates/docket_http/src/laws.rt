//! What the guard keeps from the docket, with nothing to run.
ghost use Rattle.std.specs.Prelude.{◌≡◌, ℕ, List};
ghost use Rattle.court_days.specs.Court.{CourtSettings};
ghost use Rattle.docket_history.specs.Histories.{History};
ghost use Rattle.http_request.specs.Request.{IsRequest, IsLetThrough};
ghost use Rattle.http_request.specs.declared.page.Routes.{Routes};
ghost use Rattle.http_request.specs.declared.wish.Wish.{Wish};
ghost use Rattle.docket_http.specs.Asking.{history_after};

/// Only a request that the guard lets through changes a docket.
pub fn commands_are_let_through()
    ensures { (routes : Routes) (fresh : ℕ) (input : List ℕ) (wish : Wish) (body : List ℕ) (court : CourtSettings) (h : History)
        → IsRequest routes fresh input wish body → ¬ (history_after court h wish body ≡ h) → IsLetThrough routes input }
{}
