//! The five routes.
ghost use Rattle.std.specs.Prelude.{◌≡◌, [], IfOk, OnOk};
ghost use Rattle.http_request.specs.Rows.{route_rows};

use matchit::{InsertError, Router};
use std::alloc::Global;

/// What a path asks for.
#[derive(Clone, Copy)]
pub enum Route {
    Commands,
    Case,
    Deadlines,
    Calendar,
    Holidays,
}

/// Adds the five routes to a router that has none.
fn add_routes(router: &mut Router<Route>) -> Result<(), InsertError>
    requires { router.old ≡ [] }
    ensures { OnOk result (router.new ≡ route_rows) }
{
    router.insert("/commands", Route::Commands)?;
    router.insert("/cases/{number}", Route::Case)?;
    router.insert("/cases/{number}/deadlines", Route::Deadlines)?;
    router.insert("/calendar/{from}/{to}", Route::Calendar)?;
    router.insert("/holidays/{year}", Route::Holidays)?;
    Ok(())
}

/// The router of the five routes.
pub fn router(alloc: Global) -> Result<Router<Route>, InsertError>
    ensures { IfOk result (λ rows. rows ≡ route_rows) }
{
    let mut router = Router::new(alloc);
    add_routes(&mut router)?;
    Ok(router)
}
