ghost use Rattle.std.specs.Prelude.{◌≡◌, ◌↔◌, IsTrue, length, map, string_bytes};
ghost use Rattle.druid_program.specs.Words.{AsksForReplay, AsksForServe, AsksForExplanation};

/// Whether there is the one word `replay`.
pub fn asks_for_replay(words: &[String]) -> bool
    ensures { IsTrue result ↔ AsksForReplay (map string_bytes words.now) }
{
    if words.len() != 1 {
        return false;
    }
    words[0].as_str() == "replay"
}

/// Whether there are two words, the first of which is `serve`.
pub fn asks_for_serve(words: &[String]) -> bool
    ensures two { IsTrue result → length words.now ≡ 2 }
    ensures asked { IsTrue result ↔ AsksForServe (map string_bytes words.now) }
{
    words.len() == 2 && words[0].as_str() == "serve"
}

/// Whether the value of the variable `DRUID_CLUSTER_EXPLAIN` is `1`.
pub fn asks_for_explanation(value: &str) -> bool
    ensures { IsTrue result ↔ AsksForExplanation value.now }
{
    value == "1"
}
