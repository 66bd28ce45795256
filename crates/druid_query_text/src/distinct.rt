//! Whether the names in the result are distinct, judged without allocating.
ghost use Rattle.std.specs.Prelude.{◌≡◌, ◌+◌, ◌^◌, ◌<◌, [], length};
ghost use Rattle.serde_json.specs.View.{view};
ghost use Rattle.druid_base.specs.Distinct.{are_distinct};
ghost use Rattle.druid_query.specs.Fields.{dimension_at, aggregator_at};
ghost use Rattle.druid_query_text.specs.Names.{output_or, name_or, all_names};

use crate::aggregator::aggregator_of;
use crate::dimension::dimension_of;
use druid_base::TextList;
use serde_json::Value;

fn output_of(value: &Value) -> &str
    ensures { result.now ≡ output_or (dimension_at (view value.now)) }
{
    match dimension_of(value) {
        Some(dimension) => dimension.output_name(),
        None => "",
    }
}

fn name_of(value: &Value) -> &str
    ensures { result.now ≡ name_or (aggregator_at (view value.now)) }
{
    match aggregator_of(value) {
        Some(aggregator) => aggregator.name(),
        None => "",
    }
}

// The names of a result: those of its dimensions, and then those of its aggregators.
#[derive(Drop)]
struct ResultNames<'a> {
    dimensions: &'a [Value],
    aggregators: &'a [Value],
    ghost fit: { length dimensions.now + length aggregators.now < 2 ^ 64 },
}

impl TextList for ResultNames<'_> {
    ghost texts = { λ names. all_names names.dimensions.now names.aggregators.now };

    fn count(&self) -> usize {
        self.dimensions.len() + self.aggregators.len()
    }

    fn text(&self, place: usize) -> &str {
        if place < self.dimensions.len() {
            output_of(&self.dimensions[place])
        } else {
            name_of(&self.aggregators[place - self.dimensions.len()])
        }
    }
}

// Whether the names in the result are distinct.
pub(crate) fn are_distinct(dimensions: &[Value], aggregators: &[Value]) -> bool
    requires { length dimensions.now + length aggregators.now < 2 ^ 64 }
    ensures { result ≡ are_distinct (all_names dimensions.now aggregators.now) }
{
    let names = ResultNames {
        dimensions,
        aggregators,
    };
    druid_base::are_distinct(&names)
}
