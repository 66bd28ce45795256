//! Instants and intervals print as the texts that are read back.
ghost use Rattle.std.specs.Prelude.{Some};
ghost use Rattle.druid_time.specs.Texts.{instant_text, extent_text};

use crate::{Instant, Interval};
use std::fmt;

impl fmt::Display for Instant {
    ghost output = { λ t. Some (instant_text t) };

    fn fmt<W: fmt::Write>(&self, f: &mut fmt::Formatter<W>) -> fmt::Result {
        let mut text = [b' '; 24];
        self.write(&mut text);
        f.write_str(str::from_utf8(&text).unwrap())
    }
}

impl fmt::Display for Interval {
    ghost output = { λ e. Some (extent_text e) };

    #[tactic(auto, unfolding(crate::specs::Texts::extent_text))]
    fn fmt<W: fmt::Write>(&self, f: &mut fmt::Formatter<W>) -> fmt::Result {
        write!(f, "{}/{}", self.start(), self.end())
    }
}
