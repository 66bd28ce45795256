//! Where requests go. A router allocates as it is made, and not as it is asked: so it is made once.
ghost use Rattle.std.specs.Prelude.{◌≡◌, IfOk, length, drop};
ghost use Rattle.druid_broker.specs.Borrowed.{borrowed_route};
ghost use Rattle.druid_broker.specs.Routes.{route_of, entry_front};
ghost use Rattle.druid_broker.specs.Rows.{the_rows};

use matchit::{InsertError, Router};
use std::alloc::Global;

// What a row of the router names.
#[derive(Clone, Copy)]
enum RouteKind {
    Health,
    Query,
    Sources,
    LoadStatus,
    Entry,
}

/// What a path names.
#[derive(Clone, Copy)]
pub(crate) enum Route<'a> {
    // Whether the broker is there.
    Health,
    // Queries.
    Query,
    // The data sources.
    Sources,
    // Whether each node was synced.
    LoadStatus,
    // What is known of the node of this number.
    Entry(&'a [u8]),
    // Nothing.
    Nowhere,
}

// The router, with a row for each path.
fn router(alloc: Global) -> Result<Router<RouteKind>, InsertError>
    ensures { IfOk result (λ router. router ≡ the_rows) }
{
    let mut router = Router::new(alloc);
    router.insert("/status/health", RouteKind::Health)?;
    router.insert("/druid/v2", RouteKind::Query)?;
    router.insert("/druid/v2/", RouteKind::Query)?;
    router.insert("/druid/v2/datasources", RouteKind::Sources)?;
    router.insert("/druid/broker/v1/loadstatus", RouteKind::LoadStatus)?;
    router.insert("/druid-internal/v1/inventory/{node}", RouteKind::Entry)?;
    Ok(router)
}

// What follows the front of such a path.
#[tactic(auto, using(crate::proofs::RouteLemmas::front_end))]
fn beyond_front(path: &[u8]) -> &[u8]
    ensures { result.now ≡ drop (length entry_front) path.now }
{
    let front = b"/druid-internal/v1/inventory/".len();
    let (_, part) = path.split_at(path.len().min(front));
    part
}

/// The routes of a broker.
#[derive(Drop)]
pub struct Routes {
    router: Router<RouteKind>,
    ghost rows: { router ≡ the_rows },
}

impl Routes {
    /// The routes of a broker, which serve any number of requests.
    ///
    /// # Errors
    ///
    /// `InsertError` (of which no clause speaks).
    pub fn new(alloc: Global) -> Result<Routes, InsertError> {
        Ok(Routes {
            router: router(alloc)?,
        })
    }

    // Where a path leads. Does not allocate.
    pub(crate) fn route_of<'a>(&self, path: &'a str) -> Route<'a>
        ensures { borrowed_route result ≡ route_of path.now }
    {
        let Ok(found) = self.router.at(path) else {
            return Route::Nowhere;
        };
        match found.value {
            RouteKind::Health => Route::Health,
            RouteKind::Query => Route::Query,
            RouteKind::Sources => Route::Sources,
            RouteKind::LoadStatus => Route::LoadStatus,
            RouteKind::Entry => Route::Entry(beyond_front(path.as_bytes())),
        }
    }
}
