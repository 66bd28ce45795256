//! Facts that hold of all queries.
ghost use Rattle.std.specs.Prelude.{◌≡◌, Ok, Some};
ghost use Rattle.serde_json.specs.Data.{Data};
ghost use Rattle.druid_query.specs.SubQuery.{SubQuery, IsAsked, subquery_data, subquery_at};
ghost use Rattle.druid_query.specs.Query.{Query};
ghost use Rattle.druid_query.specs.Read.{query_at, IsQuery};
ghost use Rattle.druid_filter.specs.Filters.{Condition};
ghost use Rattle.druid_query.specs.Filters.{filter_at};
ghost use Rattle.druid_query.specs.Written.{filter_data, query_data};

/// The JSON of a filter is read back as that filter.
pub fn filters_are_read_back()
    ensures { (c : Condition) → filter_at (filter_data c) ≡ Some c }
{}

/// The JSON of a query is read back as that query.
pub fn queries_are_read_back()
    ensures { (q : Query) → IsQuery q → query_at (query_data q) ≡ Ok q }
{}

/// What a value that is a subquery asks for: at least one piece, each of a segment of the query's source and inside it, and no
/// two of one segment overlap. Its query is one.
pub fn subqueries_ask_for_pieces()
    ensures query { (d : Data) (sub : SubQuery) → subquery_at d ≡ Ok sub → IsQuery sub.query }
    ensures asked { (d : Data) (sub : SubQuery) → subquery_at d ≡ Ok sub → IsAsked sub.query.source sub.asked }
{}

/// The JSON of a subquery is read back as that subquery, where it asks for a piece, each is of a segment of the query's source
/// and lies inside it, and no two of one segment overlap.
pub fn subqueries_are_read_back()
    ensures { (sub : SubQuery) → IsQuery sub.query → IsAsked sub.query.source sub.asked → subquery_at (subquery_data sub) ≡ Ok sub }
{}
