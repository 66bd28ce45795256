//! The list of what is published. It stands in contracts alone: what threads share of it is its
//! length. That each view and receipt has a front of the one list, and that a publish adds its pair
//! at the end in one step, is the rule of that word.
ghost use Rattle.std.specs.Prelude.{◌≡◌, []};
ghost use Rattle.druid_inventory_views.specs.Rules.{head_of};

use crate::publication::Publication;
use crate::receipt::Receipt;
use druid_segment_descriptor::{NodeNo, Reply};
use logbook::{Gain, Plain, Play, Rule, Seen, Start, Word};
use std::marker::{Model, PhantomData};

/// What is published at once: a reply of a node.
pub type Pair = (NodeNo, Reply);

/// The rule of the list: the word that is shared is its length.
pub struct Counted;

impl Rule<Pair, u64> for Counted {
    ghost use Rattle.std.specs.Prelude.{[]};
    ghost use base.Fml.{ftrue};
    ghost use Rattle.druid_inventory_views.specs.Rules.{IsKept};

    ghost holds = { λ cells log. IsKept cells log };

    ghost first = { [] };

    ghost hinted = { λ n log. Unit {0} };

    ghost shows = { λ log. [] };

    ghost keeps = { λ names log. ftrue };

    ghost moves = { λ ask before after answer. Unit {0} };
}

/// Nothing is kept beside the list.
pub struct Nothing;

impl Gain<Pair, u64> for Nothing {
    ghost use base.Fml.{ftrue};

    ghost after = { λ names about answer. ftrue };
}

/// A reply of a node, to be added.
#[derive(Drop)]
pub struct Addition<'a> {
    pub(crate) node: NodeNo,
    pub(crate) reply: &'a Reply,
}

/// The step that adds a reply of a node.
pub struct Add;

impl Play<Pair, u64> for Add {
    ghost use Rattle.druid_inventory_views.specs.Rules.{Adds};

    ghost then = { Adds };
}

impl<'a> Plain<Addition<'a>, Pair, u64> for Add {
    ghost use Rattle.std.specs.Prelude.{None};

    ghost ask = { λ addition. (addition.node, addition.reply.now) };

    ghost state = { λ addition. None };
}

/// A list with nothing published, which is no publisher's yet. A contract sees its name.
#[derive(Drop)]
pub struct Opened {
    head: Word<Pair, u64, Counted>,
    seen: Seen<Pair, u64, Counted>,
}

impl Model for Opened {
    ghost use Rattle.std.specs.Prelude.{◌≡◌, []};
    ghost use Rattle.logbook.specs.Pages.{Book};
    ghost use Rattle.druid_inventory_views.specs.Rules.{head_of};

    ghost Value = { Book };

    ghost view = { λ a. a.seen.book };

    ghost invariant = { λ a. (a.seen.log ≡ []) × (a.head ≡ head_of a.seen.book) };
}

/// The word that threads share.
#[derive(Drop)]
pub struct Head<J: Publication> {
    pub(crate) word: Word<Pair, u64, Counted>,
    of: PhantomData<J>,
    ghost head_is: { word ≡ head_of J.book },
}

impl Opened {
    /// A list with nothing published.
    pub fn new() -> Opened {
        let (seen, mut first, _second) = Seen::open(Start::alone(), 0, 0);
        Opened {
            head: Word::tracked(0, &mut first),
            seen,
        }
    }

    // Its word under a name, and a receipt for nothing.
    pub(crate) fn with_name<J: Publication>(self) -> (Head<J>, Receipt<J>)
        requires { self ≡ J.book }
        ensures { result.1 ≡ [] }
    {
        let Opened { head, seen } = self;
        (
            Head {
                word: head,
                of: PhantomData,
            },
            Receipt::of(0, &seen),
        )
    }
}
