//! Facts that hold of all identifiers and all ranks.
ghost use Rattle.std.specs.Prelude.{◌≡◌, ◌⊎◌, ◌↔◌, ℕ, List, Ok};
ghost use Rattle.std.specs.Ordering.{nat_cmp};
ghost use Rattle.std.specs.Cmp.Lexicographic.{slice_cmp};
ghost use Rattle.druid_segment_id.specs.Identifier.{Identifier, IsIdentifier, Spells, identifier_text, identifier_cmp};
ghost use Rattle.druid_segment_id.specs.Names.{IsName};
ghost use Rattle.druid_segment_id.specs.Parsed.{identifier_at};
ghost use Rattle.druid_segment_id.specs.Group.{Group, Outranks};

/// No two identifiers share a text, of whatever sources they are.
pub fn one_text()
    ensures { (a b : Identifier) → IsIdentifier a → IsIdentifier b
        → identifier_text a ≡ identifier_text b → a ≡ b }
{}

/// Reading a text gives the identifier of that source that the text spells, where it spells one, and nothing else.
/// So the text of an identifier is read back, and no other text is read as that identifier.
pub fn identifiers_are_read_back()
    ensures { (source text : List ℕ) (id : Identifier) → IsName source
        → (identifier_at source text ≡ Ok id) ↔ Spells source text id }
{}

/// Identifiers are in the order of their texts' bytes.
#[tactic(auto, using(crate::proofs::EqualLemmas::order_is_by_text))]
pub fn identifiers_go_by_their_texts()
    ensures { (a b : Identifier) → IsIdentifier a → IsIdentifier b
        → identifier_cmp a b ≡ slice_cmp nat_cmp (identifier_text a) (identifier_text b) }
{}

/// The order of ranks is total: of two groups one outranks the other, or they are the same.
pub fn ranks_are_total()
    ensures one_outranks { (g h : Group) → Outranks g h ⊎ (g ≡ h) ⊎ Outranks h g }
    ensures one_way { (g h : Group) → Outranks g h → Outranks h g → ⊥ }
    ensures onward { (g h k : Group) → Outranks g h → Outranks h k → Outranks g k }
{}
