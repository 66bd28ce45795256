//! Facts that hold of all entries and all replies.
ghost use Rattle.std.specs.Prelude.{◌≡◌, ◌≢◌, ◌⊎◌, List};
ghost use Rattle.std.specs.declared.cmp.Ordering.TheVariants.{Less, Greater};
ghost use Rattle.druid_segment_descriptor.specs.Mark.{mark_cmp};
ghost use Rattle.druid_segment_descriptor.specs.declared.reply.Body.{Body};
ghost use Rattle.druid_inventory.specs.Entry.{Entry};
ghost use Rattle.druid_inventory.specs.Join.{IsJoin, RefusesJoin};
ghost use Rattle.druid_inventory.specs.Step.{Steps, Refuses};
ghost use Rattle.druid_inventory.specs.declared.fault.ApplyFault.{ApplyFault};
ghost use Rattle.druid_inventory.specs.declared.fault.JoinFault.{JoinFault};
ghost use Rattle.druid_inventory.specs.declared.fault.Outcome.{Outcome};
ghost use Rattle.druid_inventory.specs.declared.fault.Outcome.TheVariants.{Moved};

/// For an entry, a reply has one outcome and leaves one entry, or it is refused for one reason.
pub fn one_step()
    ensures same { (e : Entry) (b : Body) (o p : Outcome) (new other : Entry)
        → Steps e b o new → Steps e b p other → (o ≡ p) × (new ≡ other) }
    ensures refusal { (e : Entry) (b : Body) (f g : ApplyFault) → Refuses e b f → Refuses e b g → f ≡ g }
    ensures apart { (e : Entry) (b : Body) (o : Outcome) (new : Entry) (f : ApplyFault)
        → Steps e b o new → Refuses e b f → ⊥ }
    ensures some { (e : Entry) (b : Body) → ((o : Outcome) × (new : Entry) × Steps e b o new)
        ⊎ ((f : ApplyFault) × Refuses e b f) }
{}

/// No reply takes an entry to an earlier mark, and one that moves it takes it to a later one.
pub fn marks_never_fall()
    ensures never { (e : Entry) (b : Body) (o : Outcome) (new : Entry)
        → Steps e b o new → mark_cmp e.mark new.mark ≢ Greater }
    ensures moved { (e : Entry) (b : Body) (new : Entry)
        → Steps e b Moved new → mark_cmp e.mark new.mark ≡ Less }
{}

/// Two inventories are one inventory together, or they are not joined for one reason.
pub fn one_join()
    ensures same { (a b joined other : List Entry) → IsJoin a b joined → IsJoin a b other → joined ≡ other }
    ensures refusal { (a b : List Entry) (f g : JoinFault) → RefusesJoin a b f → RefusesJoin a b g → f ≡ g }
    ensures apart { (a b joined : List Entry) (f : JoinFault) → RefusesJoin a b f → IsJoin a b joined → ⊥ }
    ensures some { (a b : List Entry) → ((joined : List Entry) × IsJoin a b joined)
        ⊎ ((f : JoinFault) × RefusesJoin a b f) }
{}
