//! Facts that hold of all lines and of all runs.
ghost use Rattle.std.specs.Prelude.{◌≡◌, ◌≢◌, ◌⊎◌, ◌∷◌, List, ℕ, Option, None};
ghost use Rattle.serde_json.specs.Data.{Data};
ghost use Rattle.druid_inventory.specs.Entry.{Entry};
ghost use Rattle.druid_replay.specs.Commands.{opening_at, command_at};
ghost use Rattle.druid_replay.specs.Nodes.{HaveOneList};
ghost use Rattle.druid_replay.specs.Reasons.{opening_fault, command_fault, opening_rules, rules_at, IsFirst};
ghost use Rattle.druid_replay.specs.Execution.{IsAnswered, IsBad};
ghost use Rattle.druid_replay.specs.Runs.{End, Runs, NoDeviceFails};
ghost use Rattle.druid_replay.specs.declared.answer.CommandAnswer.{CommandAnswer};
ghost use Rattle.druid_replay.specs.declared.answer.CommandAnswer.TheVariants.{Refused};
ghost use Rattle.druid_replay.specs.declared.answer.Refusal.TheVariants.{OtherNodes};
ghost use Rattle.druid_replay.specs.declared.reason.BadLine.TheVariants.{NoCommand};

/// No line that is answered is bad.
pub fn no_answered_line_is_bad()
    ensures { (state next : Option (List (List Entry))) (line : List ℕ) (answer : CommandAnswer)
        → IsAnswered state line answer next → IsBad state line → ⊥ }
{}

/// Each input has one run in which no device fails: there is one, and two such runs write the same and end the same.
pub fn one_run()
    ensures some { (lines : List (List ℕ))
        → (out : List ℕ) × (end : End) × Runs None 1 lines out end × NoDeviceFails end }
    ensures same { (lines : List (List ℕ)) (out other : List ℕ) (end last : End)
        → Runs None 1 lines out end → Runs None 1 lines other last → NoDeviceFails end → NoDeviceFails last
        → (out ≡ other) × (end ≡ last) }
{}

/// Each line is bad or has an answer, whatever stands before it.
pub fn each_line_is_bad_or_answered()
    ensures { (state : Option (List (List Entry))) (line : List ℕ)
        → IsBad state line
        ⊎ ((answer : CommandAnswer) × (next : Option (List (List Entry))) × IsAnswered state line answer next) }
{}

/// The reason of a line of JSON that is no command is the first of the rules for it that it breaks: where no brokers stand, those of
/// the line that asks for brokers, and else that it has the name of a command, and then the rules of that.
pub fn bad_lines_break_a_rule()
    ensures brokers { (d : Data) → opening_at d ≡ None → IsFirst 0 d opening_rules (opening_fault d) }
    ensures command { (count : ℕ) (d : Data) → command_at count d ≡ None
        → IsFirst count d (NoCommand ∷ rules_at d) (command_fault count d) }
{}

/// The brokers of a script are of one list of nodes, whatever lines are answered: so no join is refused for other nodes.
pub fn one_node_list()
    ensures keeps { (state next : Option (List (List Entry))) (line : List ℕ) (answer : CommandAnswer)
        → HaveOneList state → IsAnswered state line answer next → HaveOneList next }
    ensures joins { (state next : Option (List (List Entry))) (line : List ℕ) (answer : CommandAnswer)
        → HaveOneList state → IsAnswered state line answer next → answer ≢ Refused OtherNodes }
{}
