//! The mark from which the workers of a node answer, under a lock of its own, which is held to copy
//! it. As an atomic word with a rule its functions would be proved, but that a thread may have it
//! is not found where the thread's function has four type parameters.
ghost use Rattle.std.specs.Prelude.{◌≡◌, ◌≢◌};
ghost use Rattle.std.specs.declared.cmp.Ordering.TheVariants.{Greater};
ghost use Rattle.druid_segment_descriptor.specs.Mark.{mark_cmp};

use druid_segment_descriptor::Mark;
use std::marker::{Brand, Model, PhantomData};
use std::sync::{Mutex, Wait};

/// The mark of a node once the loads of its start are over. What threads share is known by its type alone, so this mark is a matter
/// of types.
pub trait Begun {
    ghost use Rattle.druid_segment_descriptor.specs.Mark.{Point};

    ghost mark: { Point };
}

// No node is begun at this one: a program picks the mark at the call that starts a node's threads.
impl Begun for Brand {
    ghost mark = { record { incarnation = 0; count = 0 } };
}

// A mark that is not below the one at which the node began.
#[derive(Drop)]
struct Since<J: Begun> {
    mark: Mark,
    begun: PhantomData<J>,
}

impl<J: Begun> Model for Since<J> {
    ghost use Rattle.std.specs.Prelude.{◌≡◌, ◌≢◌};
    ghost use Rattle.std.specs.declared.cmp.Ordering.TheVariants.{Greater};
    ghost use Rattle.druid_segment_descriptor.specs.Mark.{Point, mark_cmp};

    ghost Value = { Point };

    ghost view = { λ a. a.mark };

    ghost invariant = { λ a. (a.mark.incarnation ≡ J.mark.incarnation) × (mark_cmp J.mark a.mark ≢ Greater) };
}

impl<J: Begun> Since<J> {
    fn new(mark: Mark) -> Since<J>
        requires own { mark.incarnation ≡ J.mark.incarnation }
        requires reached { mark_cmp J.mark mark ≢ Greater }
        ensures { result ≡ mark }
    {
        Since {
            mark,
            begun: PhantomData,
        }
    }

    fn mark(&self) -> Mark
        ensures own { result.incarnation ≡ J.mark.incarnation }
        ensures reached { mark_cmp J.mark result ≢ Greater }
    {
        self.mark
    }
}

/// The latest mark that the loading thread of a node has noted: it is never below the one at which the node began.
#[derive(Drop)]
pub(crate) struct Latest<J: Begun> {
    since: Mutex<Since<J>>,
}

impl<J: Begun> Latest<J> {
    // Nothing was noted since the node began.
    pub(crate) fn new(seen: Mark) -> Latest<J>
        requires { seen ≡ J.mark }
    {
        Latest {
            since: Mutex::new(Since::new(seen)),
        }
    }

    // The latest mark.
    pub(crate) fn mark(&self, rt: &impl Wait) -> Mark
        ensures own { result.incarnation ≡ J.mark.incarnation }
        ensures reached { mark_cmp J.mark result ≢ Greater }
    {
        self.since.lock(rt).mark()
    }

    // Notes a later mark. One thread notes, so the latest is the last.
    pub(crate) fn note(&self, rt: &impl Wait, seen: Mark)
        requires own { seen.incarnation ≡ J.mark.incarnation }
        requires reached { mark_cmp J.mark seen ≢ Greater }
    {
        *self.since.lock(rt) = Since::new(seen);
    }
}
