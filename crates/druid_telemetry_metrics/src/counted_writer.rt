//! A writer that counts what it is written.
ghost use Rattle.std.specs.Prelude.{◌≡◌};
ghost use Rattle.std.specs.Io.KnownBytes.{WriteAppends};
ghost use Rattle.std.specs.Io.{WritesAtMost};
ghost use Rattle.druid_telemetry_metrics.specs.Counted.{counted_after};

use std::io;
use std::io::Write;
use std::marker::Model;

/// A writer over another, with how many bytes that one took.
#[derive(Drop)]
pub struct CountedWriter<W: Write + Drop> {
    writer: W,
    written: u64,
}

impl<W: Write + Drop> Model for CountedWriter<W> {
    ghost use Rattle.std.specs.Prelude.{ℕ};

    ghost Value = { W × ℕ };

    ghost view = { λ a. (a.writer, a.written) };
}

impl<W: Write + Drop> CountedWriter<W> {
    /// The writer, of which none was written.
    pub fn new(writer: W) -> CountedWriter<W>
        ensures { result ≡ (writer, 0) }
    {
        CountedWriter { writer, written: 0 }
    }

    /// How many bytes were taken; 2^64 - 1 where it was more.
    pub fn written(&self) -> u64
        ensures { result ≡ self.now.1 }
    {
        self.written
    }
}

impl<W: Write + Drop> Write for CountedWriter<W> {
    ghost contents = { λ w. W.contents w.0 };

    fn write(&mut self, buf: &[u8]) -> io::Result<usize>
        ensures bound { WritesAtMost result buf.now }
        ensures bytes { WriteAppends (W.contents self.old.0) (W.contents self.new.0) result buf.now }
        ensures counted { self.new.1 ≡ counted_after self.old.1 result }
    {
        let count = self.writer.write(buf)?;
        self.written = self.written.saturating_add(count as u64);
        Ok(count)
    }

    fn flush(&mut self) -> io::Result<()> {
        self.writer.flush()
    }
}
