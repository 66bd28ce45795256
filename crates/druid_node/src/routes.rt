//! Where requests go.
ghost use Rattle.std.specs.Prelude.{◌≡◌};
ghost use Rattle.druid_node.specs.Routes.{route_of};

/// What a path names.
#[derive(Clone, Copy, Debug, PartialEq, Eq, Drop)]
pub(crate) enum Route {
    // Whether the node is there.
    Health,
    // The segments and tombstones that it serves.
    Segments,
    // Queries.
    Query,
    // Nothing.
    Nowhere,
}

// Where a path leads.
pub(crate) fn route_of(path: &str) -> Route
    ensures { result ≡ route_of path.now }
{
    if path == "/status/health" {
        return Route::Health;
    }
    if path == "/druid-internal/v1/segments" {
        return Route::Segments;
    }
    if path == "/druid/v2" {
        return Route::Query;
    }
    if path == "/druid/v2/" {
        return Route::Query;
    }
    Route::Nowhere
}
