//! The routes, by the patterns of their paths.

ghost use Rattle.std.specs.Prelude.{◌≡◌, IfOk, OnOk};
ghost use Rattle.matchit.specs.Rows.{RowsOf};
ghost use Rattle.matchit.specs.Router.{RouteOf};
ghost use Rattle.matchit.specs.Route.{parse_route};
ghost use Rattle.http_api.specs.Routes.{desk_rows, route_of as route_by_path, with_scan};

use desk_io::NoMemory;
use matchit::Router;
use std::alloc::{AllocError, Global};
use std::marker::Model;

/// A route: one for each call that can be asked for.
#[derive(Clone, Copy, Debug, PartialEq, Eq)]
pub enum Route {
    AddAccount,
    SetQuality,
    Suspend,
    Credit,
    HostReport,
    AddCampaign,
    SetBudget,
    AddLine,
    SetBid,
    Pause,
    AddNegative,
    DropNegative,
    Import,
    Report,
    Shown,
    Search,
    Click,
}

/// The routes of the desk.
#[derive(Drop)]
pub struct Routes {
    router: Router<Route>,
}

impl Model for Routes {
    ghost use Rattle.std.specs.Prelude.{◌≡◌};
    ghost use Rattle.matchit.specs.Rows.{RowsOf};
    ghost use Rattle.matchit.specs.Router.{RouteOf};
    ghost use Rattle.http_api.specs.Routes.{desk_rows};
    ghost use Rattle.http_api.specs.declared.route.Route.{Route};

    ghost Value = { RowsOf (RouteOf Route) };

    ghost view = { λ r. r.router };

    ghost invariant = { λ r. r.router ≡ desk_rows };
}

impl Routes {
    /// The table of the routes.
    pub fn new(alloc: Global) -> Result<Routes, NoMemory> {
        Ok(Routes {
            router: router(alloc)?,
        })
    }

    /// The route of a path.
    pub fn find(&self, path: &str) -> Option<Route>
        ensures { result ≡ route_by_path path.now }
    {
        match self.router.at(path) {
            Ok(found) => Some(*found.value),
            Err(_) => None,
        }
    }
}

/// A router with the patterns of all routes.
fn router(alloc: Global) -> Result<Router<Route>, NoMemory>
    ensures { IfOk result (λ router. router ≡ desk_rows) }
{
    let mut router = Router::new(alloc);
    insert(&mut router, "/accounts", Route::AddAccount)?;
    insert(&mut router, "/quality", Route::SetQuality)?;
    insert(&mut router, "/suspend", Route::Suspend)?;
    insert(&mut router, "/credit/{n}", Route::Credit)?;
    insert(&mut router, "/host/{day}", Route::HostReport)?;
    insert(&mut router, "/a/{account}/campaigns", Route::AddCampaign)?;
    insert(&mut router, "/a/{account}/budget", Route::SetBudget)?;
    insert(&mut router, "/a/{account}/lines", Route::AddLine)?;
    insert(&mut router, "/a/{account}/bid", Route::SetBid)?;
    insert(&mut router, "/a/{account}/pause", Route::Pause)?;
    insert(&mut router, "/a/{account}/negatives", Route::AddNegative)?;
    insert(&mut router, "/a/{account}/drop/{n}", Route::DropNegative)?;
    insert(&mut router, "/a/{account}/import/{batch}", Route::Import)?;
    insert(&mut router, "/a/{account}/report/{day}", Route::Report)?;
    insert(&mut router, "/a/{account}/shown/{day}", Route::Shown)?;
    insert(&mut router, "/search", Route::Search)?;
    insert(&mut router, "/click/{n}", Route::Click)?;
    Ok(router)
}

/// Inserts a route. The patterns of the table conflict with none, so what is refused was refused for memory.
fn insert(router: &mut Router<Route>, pattern: &str, route: Route) -> Result<(), NoMemory>
    ensures { OnOk result (router.new ≡ with_scan (parse_route pattern.now) route router.old) }
{
    router.insert(pattern, route).map_err(|_| AllocError)
}
