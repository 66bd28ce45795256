//! Rows.
ghost use Rattle.std.specs.Prelude.{◌≡◌};
ghost use Rattle.druid_segment_rows.specs.Rows.{nullable_texts_of};

use crate::row_ref::RowRef;
use druid_time::Instant;
use std::marker::Model;

/// A row: its instant, a text or null for each dimension, and a number or null for each metric.
#[derive(Debug, Drop)]
pub struct Row {
    time: Instant,
    dimensions: Vec<Option<String>>,
    metrics: Vec<Option<i64>>,
}

impl Model for Row {
    ghost use Rattle.druid_segment_rows.specs.Rows.{Row, nullable_texts_of};

    ghost Value = { Row };

    ghost view = { λ a. record {
      time = a.time;
      dimensions = nullable_texts_of a.dimensions.items;
      metrics = a.metrics.items;
    } };
}

impl Row {
    /// The row of these values. It may have any number of them.
    pub fn new(time: Instant, dimensions: Vec<Option<String>>, metrics: Vec<Option<i64>>) -> Row
        ensures { result ≡ record {
          time = time;
          dimensions = nullable_texts_of dimensions.items;
          metrics = metrics.items;
        } }
    {
        Row {
            time,
            dimensions,
            metrics,
        }
    }

    /// Its instant.
    pub fn time(&self) -> Instant
        ensures { result ≡ self.now.time }
    {
        self.time
    }

    /// A text or null for each dimension.
    pub fn dimensions(&self) -> &[Option<String>]
        ensures { nullable_texts_of result.now ≡ self.now.dimensions }
    {
        &self.dimensions
    }

    /// A number or null for each metric.
    pub fn metrics(&self) -> &[Option<i64>]
        ensures { result.now ≡ self.now.metrics }
    {
        &self.metrics
    }

    // Its values, borrowed.
    pub(crate) fn as_row_ref(&self) -> RowRef<'_, String>
        ensures { result ≡ self.now }
    {
        RowRef::new(self.time, &self.dimensions, &self.metrics)
    }
}
