//! The route of a path, with the texts in the place of its parameters.
ghost use Rattle.std.specs.Prelude.{◌≡◌, ℕ, List, Some, None, MatchOption};
ghost use Rattle.matchit.specs.Params.{walk, AllText, named};
ghost use Rattle.http_request.specs.Rows.{route_rows};
ghost use Rattle.http_request.specs.Path.{Place, place_of};
ghost use Rattle.http_request.specs.Values.{HasValues};

use crate::route::Route;
use matchit::{Params, Router};

/// A route, and the texts in the place of its parameters. A route has up to two.
#[derive(Clone, Copy)]
pub struct RouteMatch<'p> {
    pub route: Route,
    pub first: &'p str,
    pub second: &'p str,
}

/// The text in the place of the parameter of a name.
fn value<'p>(params: &Params<'_, 'p>, name: &str) -> &'p str
    ensures { (text : List ℕ)
        → AllText (walk params.now.pattern.now params.now.text.now params.now.path.now params.now.names.now 0 0)
        → named name.now (walk params.now.pattern.now params.now.text.now params.now.path.now params.now.names.now 0 0) ≡ Some text
        → result.now ≡ text }
{
    match params.get(name) {
        Some(value) => value,
        None => "",
    }
}

/// The route with what its parameters took.
fn found_on<'p>(route: Route, params: &Params<'_, 'p>) -> RouteMatch<'p>
    ensures { (place : Place) → place.route ≡ route
        → HasValues place (walk params.now.pattern.now params.now.text.now params.now.path.now params.now.names.now 0 0)
        → (result.route ≡ place.route) × (result.first.now ≡ place.first) × (result.second.now ≡ place.second) }
{
    let (first, second) = match route {
        Route::Commands => ("", ""),
        Route::Case | Route::Deadlines => (value(params, "number"), ""),
        Route::Calendar => (value(params, "from"), value(params, "to")),
        Route::Holidays => (value(params, "year"), ""),
    };
    RouteMatch {
        route,
        first,
        second,
    }
}

/// What a path asks for, if it has a route.
pub fn find<'p>(router: &Router<Route>, path: &'p str) -> Option<RouteMatch<'p>>
    requires { router.now ≡ route_rows }
    ensures { MatchOption result (place_of path.now ≡ None) (λ found.
        place_of path.now ≡ Some (record { route = found.route; first = found.first.now; second = found.second.now })) }
{
    match router.at(path) {
        Ok(found) => Some(found_on(*found.value, &found.params)),
        Err(_) => None,
    }
}
