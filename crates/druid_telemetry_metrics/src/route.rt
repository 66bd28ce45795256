//! What the servers of a cluster are asked for, and with which status they answer.
ghost use Rattle.std.specs.Prelude.{◌≡◌, ◌<◌, IfSome, None, length, position};
ghost use Rattle.druid_telemetry_metrics.specs.Routes.{is_space, ends_path, front_to, after, path_in, route_at, route_text, route_place, status_place, status_text};

/// What a request asks for, by its path.
#[derive(Clone, Copy, Debug, PartialEq, Eq, Drop)]
pub enum Route {
    /// `/status/health`.
    Health,
    /// `/metrics`.
    Metrics,
    /// `/druid/v2` and `/druid/v2/`.
    Query,
    /// `/druid/v2/datasources`.
    Datasources,
    /// `/druid/broker/v1/loadstatus`.
    LoadStatus,
    /// `/druid-internal/v1/segments`.
    Segments,
    /// `/druid-internal/v1/inventory/` and what follows.
    Inventory,
    /// Any other, and a request that was not read.
    Other,
}

/// The routes, in the order of their places.
pub const ROUTES: [Route; 8] = [
    Route::Health,
    Route::Metrics,
    Route::Query,
    Route::Datasources,
    Route::LoadStatus,
    Route::Segments,
    Route::Inventory,
    Route::Other,
];

/// The statuses that servers write, in the order of their places; None where none was written.
pub const STATUSES: [Option<u16>; 7] = [
    Some(200),
    Some(400),
    Some(404),
    Some(405),
    Some(500),
    Some(503),
    None,
];

impl Route {
    /// Its name, as a label has it.
    pub fn text(self) -> &'static str
        ensures { result.now ≡ route_text self }
    {
        match self {
            Route::Health => "health",
            Route::Metrics => "metrics",
            Route::Query => "query",
            Route::Datasources => "datasources",
            Route::LoadStatus => "loadstatus",
            Route::Segments => "segments",
            Route::Inventory => "inventory",
            Route::Other => "other",
        }
    }

    /// Its place among the routes, from 0.
    pub fn place(self) -> usize
        ensures place { result ≡ route_place self }
        ensures few { result < 8 }
    {
        match self {
            Route::Health => 0,
            Route::Metrics => 1,
            Route::Query => 2,
            Route::Datasources => 3,
            Route::LoadStatus => 4,
            Route::Segments => 5,
            Route::Inventory => 6,
            Route::Other => 7,
        }
    }

    /// The route of a path, without parameters.
    pub fn of_path(path: &[u8]) -> Route
        ensures { result ≡ route_at path.now }
    {
        if path == b"/status/health".as_slice() {
            return Route::Health;
        }
        if path == b"/metrics".as_slice() {
            return Route::Metrics;
        }
        if path == b"/druid/v2".as_slice() || path == b"/druid/v2/".as_slice() {
            return Route::Query;
        }
        if path == b"/druid/v2/datasources".as_slice() {
            return Route::Datasources;
        }
        if path == b"/druid/broker/v1/loadstatus".as_slice() {
            return Route::LoadStatus;
        }
        if path == b"/druid-internal/v1/segments".as_slice() {
            return Route::Segments;
        }
        match path.strip_prefix(b"/druid-internal/v1/inventory/") {
            Some(_) => Route::Inventory,
            None => Route::Other,
        }
    }
}

// Whether a byte ends the path of a request's line.
fn ends_path(byte: u8) -> bool
    ensures { result ≡ ends_path byte }
{
    byte == b' ' || byte == b'?' || byte == b'\r' || byte == b'\n'
}

// Where the first space stands.
fn space_in(bytes: &[u8]) -> Option<usize>
    ensures value { result ≡ position is_space bytes.now }
    ensures bound { IfSome result (λ place. place < length bytes.now) }
{
    bytes.iter().position(|byte| *byte == b' ')
}

// Where the first byte stands that ends a path.
fn end_in(bytes: &[u8]) -> Option<usize>
    ensures value { result ≡ position ends_path bytes.now }
    ensures bound { IfSome result (λ place. place < length bytes.now) }
{
    bytes.iter().position(|byte| ends_path(*byte))
}

// What stands before the byte that ends a path.
fn front(bytes: &[u8]) -> &[u8]
    ensures { result.now ≡ front_to (position ends_path bytes.now) bytes.now }
{
    match end_in(bytes) {
        Some(end) => &bytes[..end],
        None => bytes,
    }
}

// What stands after the first space.
fn after_space(bytes: &[u8]) -> &[u8]
    ensures { result.now ≡ after (position is_space bytes.now) bytes.now }
{
    match space_in(bytes) {
        Some(space) => bytes.split_at(space + 1).1,
        None => b"",
    }
}

/// The route of a request, by the bytes of it that have come: `Other` where they do not hold its path.
pub fn route_of_head(head: &[u8]) -> Route
    ensures { result ≡ route_at (path_in head.now) }
{
    Route::of_path(front(after_space(head)))
}

/// The place of a status among those that servers write, from 0; that of `none` where nothing was written, or another.
pub fn status_place(status: Option<u16>) -> usize
    ensures place { result ≡ status_place status }
    ensures few { result < 7 }
{
    match status {
        Some(200) => 0,
        Some(400) => 1,
        Some(404) => 2,
        Some(405) => 3,
        Some(500) => 4,
        Some(503) => 5,
        _ => 6,
    }
}

/// The text of a status, as a label has it: `none` where nothing was written, or another than servers write.
pub fn status_text(status: Option<u16>) -> &'static str
    ensures { result.now ≡ status_text status }
{
    match status {
        Some(200) => "200",
        Some(400) => "400",
        Some(404) => "404",
        Some(405) => "405",
        Some(500) => "500",
        Some(503) => "503",
        _ => "none",
    }
}
