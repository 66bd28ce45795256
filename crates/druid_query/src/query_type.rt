/// How a query groups rows.
#[derive(Clone, Copy, Debug, PartialEq, Eq, Drop)]
pub enum QueryType {
    /// By time alone.
    Timeseries,
    /// By time and by the values of dimensions.
    GroupBy,
}
