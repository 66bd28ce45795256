//! Facts that hold of all texts of partials and results.
ghost use Rattle.std.specs.Prelude.{◌≡◌, List, All};
ghost use Rattle.serde_json.specs.Data.{Data};
ghost use Rattle.druid_query.specs.Query.{Query};
ghost use Rattle.druid_query.specs.Asked.{Asked};
ghost use Rattle.druid_query.specs.SubQuery.{SubQuery};
ghost use Rattle.druid_partial.specs.Groups.{Group, InOrder};
ghost use Rattle.druid_partial.specs.Partials.{IsGroupFor};
ghost use Rattle.druid_partial_text.specs.Written.{IsHeld, partial_data};
ghost use Rattle.druid_partial_text.specs.Read.{ReportsGroups};
ghost use Rattle.druid_partial_text.specs.Answers.{AreOfSource, WereAsked, ReportsAnswer, answer_data};

/// The JSON of the groups of a partial tells those groups.
pub fn partials_are_read_back()
    ensures { (query : Query) (groups : List Group) → InOrder groups → All (IsGroupFor query) groups → All IsHeld groups
        → ReportsGroups query (partial_data groups) groups }
{}

/// A value tells one list of groups only.
pub fn one_reading()
    ensures { (query : Query) (d : Data) (a b : List Group) → ReportsGroups query d a → ReportsGroups query d b → a ≡ b }
{}

/// The JSON of an answer of a node tells that answer, where each piece that is missing was asked for and is of the query's
/// source.
pub fn node_answers_are_read_back()
    ensures { (sub : SubQuery) (missing : List Asked) (groups : List Group) → WereAsked sub missing
        → AreOfSource sub.query.source missing → InOrder groups → All (IsGroupFor sub.query) groups → All IsHeld groups
        → ReportsAnswer sub (answer_data missing groups) missing groups }
{}
