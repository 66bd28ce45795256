//! Segments made row by row, for readers of files: these would hold each row twice, once as it was
//! read and once as it is kept, if they had to hand over all at once.
ghost use Rattle.std.specs.Prelude.{◌≡◌, ◌↔◌, ◌-◌, [], true, false, IfOk, OnOk, OnErr, OnSome, SomeIff, IsErrOf, IsOkUnless};
ghost use Rattle.druid_segment_rows.specs.Rows.{texts_by, row_of, IsSchema, HasShape, IsInside, HasWords};
ghost use Rattle.druid_segment_rows.specs.Segment.{Segment, IsWithinLimits, HaveWords, IsSegment, segment_of, with_row, text_length, max_text};

use crate::limits::MAX_ROWS;
use crate::row_ref::RowRef;
use crate::segment::judge;
use crate::table_builder::TableBuilder;
use crate::{Row, RowFault, Schema, Segment};
use druid_segment_descriptor::Descriptor;
use druid_time::Instant;
use std::alloc::{AllocError, Global};
use std::convert::AsStr;
use std::marker::Model;

/// Makes a segment row by row, for a caller that does not have them all at once. At each moment it is a segment.
#[derive(Debug, Drop)]
pub struct SegmentBuilder {
    descriptor: Descriptor,
    schema: Schema,
    table: TableBuilder,
    room: usize,
}

impl Model for SegmentBuilder {
    ghost use Rattle.std.specs.Prelude.{◌≡◌, ◌-◌, length};
    ghost use Rattle.druid_segment_rows.specs.Segment.{Segment, IsSegment, HaveWords, segment_of, text_length, max_text};

    ghost Value = { Segment };

    ghost view = { λ a. segment_of a.descriptor a.schema a.table.rows };

    ghost invariant = { λ a. IsSegment (segment_of a.descriptor a.schema a.table.rows)
        × HaveWords (segment_of a.descriptor a.schema a.table.rows)
        × (a.room ≡ max_text - text_length (segment_of a.descriptor a.schema a.table.rows))
        × (a.table.dimensions ≡ length a.schema.dimensions)
        × (a.table.metrics ≡ length a.schema.metrics) };
}

impl SegmentBuilder {
    /// A segment that has no rows yet.
    ///
    /// # Errors
    ///
    /// U5; then U1; then U4; U9 last.
    pub fn new(
        alloc: Global,
        descriptor: Descriptor,
        schema: Schema,
    ) -> Result<SegmentBuilder, RowFault>
        ensures value { IfOk result (λ builder. builder ≡ segment_of descriptor schema []) }
        ensures accepts { IsSegment (segment_of descriptor schema [])
            → IsOkUnless result RowFault.Memory }
        ensures tombstone { IsErrOf result RowFault.Tombstone ↔ (descriptor.tombstone ≡ true) }
        ensures bad_schema { IsErrOf result RowFault.BadSchema
            ↔ ((descriptor.tombstone ≡ false) × (¬ IsSchema schema)) }
        ensures too_long { IsErrOf result RowFault.TooLong
            ↔ ((descriptor.tombstone ≡ false)
            × IsSchema schema
            × (¬ IsWithinLimits (segment_of descriptor schema []))) }
    {
        match judge(&descriptor, &schema, &[]) {
            Ok(room) => Ok(SegmentBuilder::of_judged(alloc, descriptor, schema, room)?),
            Err(fault) => Err(fault),
        }
    }

    // No rows of a schema that a segment of none may have, of which the text leaves this room.
    fn of_judged(
        alloc: Global,
        descriptor: Descriptor,
        schema: Schema,
        room: usize,
    ) -> Result<SegmentBuilder, AllocError>
        requires valid { IsSegment (segment_of descriptor schema []) }
        requires words { HaveWords (segment_of descriptor schema []) }
        requires room { room ≡ max_text - text_length (segment_of descriptor schema []) }
        ensures { IfOk result (λ builder. builder ≡ segment_of descriptor schema []) }
    {
        let (dimensions, metrics) = (schema.dimensions().len(), schema.metrics().len());
        let table = TableBuilder::new(alloc, dimensions, metrics)?;
        Ok(SegmentBuilder {
            descriptor,
            schema,
            table,
            room,
        })
    }

    // The room that is left after one more row. None where a limit would be passed.
    fn room_beyond<T: AsStr>(&self, row: &RowRef<'_, T>) -> Option<usize>
        ensures value { SomeIff result (IsWithinLimits (with_row self.now row.now))
            (max_text - text_length (with_row self.now row.now)) }
        ensures words { OnSome result (HasWords row.now) }
    {
        if self.table.len() == MAX_ROWS {
            return None;
        }
        if !row.has_short_values() {
            return None;
        }
        row.room_after(self.room)
    }

    /// Adds a row after the others.
    ///
    /// # Errors
    ///
    /// U4 where a limit would be passed; then U3; then U2; U9 last. Leaves the rows as they were.
    pub fn push(&mut self, row: &Row) -> Result<(), RowFault>
        ensures ok { OnOk result (self.new ≡ with_row self.old row.now) }
        ensures err { OnErr result (self.new ≡ self.old) }
        ensures accepts { IsSegment (with_row self.old row.now) → IsOkUnless result RowFault.Memory }
        ensures too_long { IsErrOf result RowFault.TooLong ↔ (¬ IsWithinLimits (with_row self.old row.now)) }
        ensures row_shape { IsErrOf result RowFault.RowShape
            ↔ (IsWithinLimits (with_row self.old row.now) × (¬ HasShape self.old.fields row.now)) }
        ensures row_outside { IsErrOf result RowFault.RowOutside
            ↔ (IsWithinLimits (with_row self.old row.now) × HasShape self.old.fields row.now
            × (¬ IsInside self.old.descriptor.id.interval row.now)) }
    {
        self.push_ref(&row.as_row_ref())
    }

    /// Adds a row of these values after the others. Each text is copied once, to where it stays.
    ///
    /// # Errors
    ///
    /// Those of `push`. Leaves the rows as they were.
    pub fn push_values<T: AsStr>(
        &mut self,
        time: Instant,
        dimensions: &[Option<T>],
        metrics: &[Option<i64>],
    ) -> Result<(), RowFault>
        ensures ok { OnOk result (self.new ≡ with_row self.old (row_of time (texts_by T.text dimensions.entry.now) metrics.now)) }
        ensures err { OnErr result (self.new ≡ self.old) }
        ensures accepts { IsSegment (with_row self.old (row_of time (texts_by T.text dimensions.entry.now) metrics.now)) → IsOkUnless result RowFault.Memory }
        ensures too_long { IsErrOf result RowFault.TooLong ↔ (¬ IsWithinLimits (with_row self.old (row_of time (texts_by T.text dimensions.entry.now) metrics.now))) }
        ensures row_shape { IsErrOf result RowFault.RowShape
            ↔ (IsWithinLimits (with_row self.old (row_of time (texts_by T.text dimensions.entry.now) metrics.now)) × (¬ HasShape self.old.fields (row_of time (texts_by T.text dimensions.entry.now) metrics.now))) }
        ensures row_outside { IsErrOf result RowFault.RowOutside
            ↔ (IsWithinLimits (with_row self.old (row_of time (texts_by T.text dimensions.entry.now) metrics.now)) × HasShape self.old.fields (row_of time (texts_by T.text dimensions.entry.now) metrics.now)
            × (¬ IsInside self.old.descriptor.id.interval (row_of time (texts_by T.text dimensions.entry.now) metrics.now))) }
    {
        self.push_ref(&RowRef::new(time, dimensions, metrics))
    }

    fn push_ref<T: AsStr>(&mut self, row: &RowRef<'_, T>) -> Result<(), RowFault>
        ensures ok { OnOk result (self.new ≡ with_row self.old row.now) }
        ensures err { OnErr result (self.new ≡ self.old) }
        ensures accepts { IsSegment (with_row self.old row.now) → IsOkUnless result RowFault.Memory }
        ensures too_long { IsErrOf result RowFault.TooLong ↔ (¬ IsWithinLimits (with_row self.old row.now)) }
        ensures row_shape { IsErrOf result RowFault.RowShape
            ↔ (IsWithinLimits (with_row self.old row.now) × (¬ HasShape self.old.fields row.now)) }
        ensures row_outside { IsErrOf result RowFault.RowOutside
            ↔ (IsWithinLimits (with_row self.old row.now) × HasShape self.old.fields row.now
            × (¬ IsInside self.old.descriptor.id.interval row.now)) }
    {
        let Some(room) = self.room_beyond(row) else {
            return Err(RowFault::TooLong);
        };
        if !self.schema.fits(row) {
            return Err(RowFault::RowShape);
        }
        if !self.descriptor.id().interval().contains(row.time()) {
            return Err(RowFault::RowOutside);
        }
        self.table.push(row)?;
        self.room = room;
        Ok(())
    }

    /// The segment of the rows that were added, in their order.
    ///
    /// # Errors
    ///
    /// Out of memory.
    pub fn finish(self) -> Result<Segment, AllocError>
        ensures value { IfOk result (λ segment. segment ≡ self) }
        ensures valid { IfOk result IsSegment }
        ensures words { IfOk result HaveWords }
    {
        let SegmentBuilder {
            descriptor,
            schema,
            table,
            ..
        } = self;
        Ok(Segment {
            descriptor,
            schema,
            table: table.finish()?,
        })
    }
}
