//! Readers of what is announced of a segment.
ghost use Rattle.std.specs.Prelude.{◌≡◌, ◌≤◌, ok_or, IfOk};
ghost use Rattle.druid_segment_id.specs.Names.{is_name, is_version, IsName, IsVersion};
ghost use Rattle.druid_segment_descriptor.specs.Described.{max_core};
ghost use Rattle.druid_segment_file.specs.Parts.{accepted, instant_of, moment_at, interval_at, name_at, version_at, core_at, descriptor_at};
ghost use Rattle.druid_segment_file.specs.Reader.{Gives, GivesAs, TakesAs};

use crate::FileFault;
use crate::cursor::Cursor;
use druid_segment_descriptor::{Descriptor, MAX_CORE};
use druid_segment_id::{MAX_NAME, MAX_VERSION, Name, SegmentId, Version};
use druid_time::{Instant, Interval};
use std::alloc::{AllocError, Global};
use std::marker::Model;
use std::str;

// What is announced of a segment, with texts that lie in its bytes.
#[derive(Drop)]
pub(crate) struct Announcement<'a> {
    source: &'a str,
    interval: Interval,
    version: &'a str,
    partition: u16,
    core: u16,
    size: u64,
}

impl<'a> Model for Announcement<'a> {
    ghost use Rattle.std.specs.Prelude.{◌≤◌, false};
    ghost use Rattle.druid_segment_id.specs.Names.{IsName, IsVersion};
    ghost use Rattle.druid_segment_descriptor.specs.Described.{Described, max_core};

    ghost Value = { Described };

    ghost view = { λ a. record {
      id = record { source = a.source.now; interval = a.interval; version = a.version.now; partition = a.partition };
      core = a.core;
      size = a.size;
      tombstone = false;
    } };

    ghost invariant = { λ a. IsName a.source.now × IsVersion a.version.now × (a.core ≤ max_core) };
}

// The instant that many milliseconds after the start of 1970, if it is one.
#[tactic(auto, using(crate::proofs::MomentLemmas::instant_made))]
pub(crate) fn instant_of(ms: i64) -> Option<Instant>
    ensures { result ≡ instant_of ms }
{
    Instant::new(ms)
}

fn moment(ms: i64) -> Result<Instant, FileFault>
    ensures { Gives result (ok_or (instant_of ms) FileFault.Field) }
{
    instant_of(ms).ok_or(FileFault::Field)
}

#[tactic(auto, using(crate::proofs::TextLemmas::no_name, crate::proofs::TextLemmas::refused_name, crate::proofs::TextLemmas::taken_name), unfolding(crate::specs::Parts::accepted))]
fn name_of(text: &[u8]) -> Result<&str, FileFault>
    ensures value { GivesAs (λ name. name.now) result (accepted is_name text.now) }
    ensures valid { IfOk result (λ name. IsName name.now) }
{
    let Ok(text) = str::from_utf8(text) else {
        return Err(FileFault::Field);
    };
    if !Name::accepts(text) {
        return Err(FileFault::Field);
    }
    Ok(text)
}

#[tactic(auto, using(crate::proofs::TextLemmas::no_version, crate::proofs::TextLemmas::refused_version, crate::proofs::TextLemmas::taken_version), unfolding(crate::specs::Parts::accepted))]
fn version_of(text: &[u8]) -> Result<&str, FileFault>
    ensures value { GivesAs (λ version. version.now) result (accepted is_version text.now) }
    ensures valid { IfOk result (λ version. IsVersion version.now) }
{
    let Ok(text) = str::from_utf8(text) else {
        return Err(FileFault::Field);
    };
    if !Version::accepts(text) {
        return Err(FileFault::Field);
    }
    Ok(text)
}

impl<'a> Cursor<'a> {
    #[tactic(auto, unfolding(crate::specs::Parts::moment_at))]
    fn moment(&mut self) -> Result<Instant, FileFault>
        ensures { TakesAs (λ time. time) self.old self.new result (moment_at self.old.short self.old.rest) }
    {
        moment(self.i64()?)
    }

    #[tactic(auto, unfolding(crate::specs::Parts::interval_at))]
    fn interval(&mut self) -> Result<Interval, FileFault>
        ensures { TakesAs (λ extent. extent) self.old self.new result (interval_at self.old.short self.old.rest) }
    {
        let start = self.moment()?;
        let end = self.moment()?;
        Interval::new(start, end).ok_or(FileFault::Field)
    }

    #[tactic(auto, unfolding(crate::specs::Parts::name_at))]
    fn name(&mut self) -> Result<&'a str, FileFault>
        ensures valid { IfOk result (λ name. IsName name.now) }
        ensures value { TakesAs (λ name. name.now) self.old self.new result (name_at self.old.short self.old.rest) }
    {
        name_of(self.short_text(MAX_NAME)?)
    }

    #[tactic(auto, unfolding(crate::specs::Parts::version_at))]
    fn version(&mut self) -> Result<&'a str, FileFault>
        ensures valid { IfOk result (λ version. IsVersion version.now) }
        ensures value { TakesAs (λ version. version.now) self.old self.new result (version_at self.old.short self.old.rest) }
    {
        version_of(self.short_text(MAX_VERSION)?)
    }

    // The number of core partitions.
    #[tactic(auto, unfolding(crate::specs::Parts::core_at, crate::specs::Parts::accepted))]
    fn core(&mut self) -> Result<u16, FileFault>
        ensures valid { IfOk result (λ core. core ≤ max_core) }
        ensures value { TakesAs (λ core. core) self.old self.new result (core_at self.old.short self.old.rest) }
    {
        let core = self.u16()?;
        if core > MAX_CORE {
            return Err(FileFault::Field);
        }
        Ok(core)
    }

    #[tactic(auto, unfolding(crate::specs::Parts::descriptor_at))]
    pub(crate) fn announcement(&mut self) -> Result<Announcement<'a>, FileFault>
        ensures { TakesAs (λ announcement. announcement) self.old self.new result (descriptor_at self.old.short self.old.rest) }
    {
        let source = self.name()?;
        let interval = match self.interval() {
            Ok(interval) => interval,
            Err(fault) => return Err(fault),
        };
        let version = self.version()?;
        let partition = self.u16()?;
        let core = self.core()?;
        let size = self.u64()?;
        Ok(Announcement {
            source,
            interval,
            version,
            partition,
            core,
            size,
        })
    }
}

impl Announcement<'_> {
    // The instants that the rows lie between.
    pub(crate) fn interval(&self) -> Interval
        ensures { result ≡ self.now.id.interval }
    {
        self.interval
    }

    // The descriptor of these parts.
    pub(crate) fn descriptor(&self, alloc: Global) -> Result<Descriptor, AllocError>
        ensures { IfOk result (λ descriptor. descriptor ≡ self.now) }
    {
        let Ok(source) = Name::new(alloc, self.source) else {
            return Err(AllocError);
        };
        let Ok(version) = Version::new(alloc, self.version) else {
            return Err(AllocError);
        };
        let id = SegmentId::new(source, self.interval, version, self.partition);
        let Some(descriptor) = Descriptor::new(id, self.core, self.size) else {
            unreachable!();
        };
        Ok(descriptor)
    }
}
