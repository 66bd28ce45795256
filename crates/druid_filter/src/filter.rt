/// Which rows of a segment are asked for. A dimension that a row has no value for is null, and so is one that the schema
/// has not; null and the empty text differ.
#[derive(Debug, Drop)]
pub enum Filter {
    /// The dimension has this value.
    Selector(String, Option<String>),
    /// The dimension has one of these values.
    Among(String, Vec<Option<String>>),
    /// The row passes each of these; all rows pass where there are none.
    All(Vec<Filter>),
    /// The row passes one of these; no row passes where there are none.
    Any(Vec<Filter>),
    /// The row does not pass this one.
    Not(Box<Filter>),
}
