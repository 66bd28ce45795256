//! What a query groups rows by.
ghost use Rattle.std.specs.Prelude.{◌≡◌, IfOk};

use std::alloc::{AllocError, Global};
use std::marker::Model;

/// A dimension that rows are grouped by, and its name in the result.
#[derive(Debug, Drop)]
pub struct Dimension {
    dimension: String,
    output_name: String,
}

impl Model for Dimension {
    ghost use Rattle.std.specs.Prelude.{string_bytes};
    ghost use Rattle.druid_query.specs.Query.{Dimension};

    ghost Value = { Dimension };

    ghost view = { λ a. record {
      dimension = string_bytes a.dimension;
      output_name = string_bytes a.output_name;
    } };
}

impl Dimension {
    /// That dimension, which goes by that name in the result.
    ///
    /// # Errors
    ///
    /// Out of memory.
    pub fn new(alloc: Global, dimension: &str, output_name: &str) -> Result<Dimension, AllocError>
        ensures { IfOk result (λ made. made ≡ record { dimension = dimension.now; output_name = output_name.now }) }
    {
        let dimension = String::from_str(alloc, dimension)?;
        let output_name = String::from_str(alloc, output_name)?;
        Ok(Dimension {
            dimension,
            output_name,
        })
    }

    /// The name of the dimension.
    pub fn dimension(&self) -> &str
        ensures { result.now ≡ self.now.dimension }
    {
        self.dimension.as_str()
    }

    /// Its name in the result.
    pub fn output_name(&self) -> &str
        ensures { result.now ≡ self.now.output_name }
    {
        self.output_name.as_str()
    }
}
