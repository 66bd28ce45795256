//! How much is logged.
ghost use Rattle.std.specs.Prelude.{◌≡◌};
ghost use Rattle.druid_telemetry_log.specs.Levels.{level_of_text, lets};

/// How much is logged: nothing, what happens to segments and nodes, or each connection too.
#[derive(Clone, Copy, Debug, PartialEq, Eq, Drop)]
pub enum Level {
    /// Nothing.
    Off,
    /// What happens to segments and nodes.
    Info,
    /// Each connection too.
    Debug,
}

impl Level {
    /// The level that a text names: `info`, `debug`, and `Off` for any other.
    pub fn of_text(text: &str) -> Level
        ensures { result ≡ level_of_text text.now }
    {
        if text == "info" {
            return Level::Info;
        }
        if text == "debug" {
            return Level::Debug;
        }
        Level::Off
    }

    /// Whether an event of a level is logged.
    pub fn lets(self, event: Level) -> bool
        ensures { result ≡ lets self event }
    {
        match self {
            Level::Off => false,
            Level::Info => event == Level::Info,
            Level::Debug => event != Level::Off,
        }
    }
}
