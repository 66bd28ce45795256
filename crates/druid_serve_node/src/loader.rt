//! The thread of a node that loads what comes once the node listens. Of a load that answers nothing
//! no clause could say that it was tried, since any load may be refused: an `EndOfLoads`, which
//! only this thread gives, says it. That `serve` waits for it no test can say without a race: the
//! start loads all that is there, and so a loader finds only what came after.
ghost use Rattle.std.specs.Prelude.{◌≡◌, ◌≢◌};
ghost use Rattle.std.specs.declared.cmp.Ordering.TheVariants.{Greater};
ghost use Rattle.druid_segment_descriptor.specs.Mark.{mark_cmp};

use crate::latest_mark::{Begun, Latest};
use crate::owner::Owner;
use crate::reporter::Reporter;
use crate::watch::Watch;
use druid_folder::Folder;
use druid_folder_store::{Device, DiskFolder};
use druid_node::{DataNode, Incarnation};
use druid_serve_base::{DeviceFailed, Handover, Host};
use std::alloc::Global;
use std::fs::File;
use std::rt::Files;
use std::sync::{Arc, Wait};
use std::thread;
use std::time::{Clock, Duration};

// Shows that the files that a node loads later were tried.
#[derive(Debug, Drop)]
pub(crate) struct Tried(());

/// Shows that the files that a node loads later were tried: only the thread that tries them lets there be one. While there is one of a
/// node that `start_owner` started, the node's folder is its own.
#[derive(Debug, Drop)]
pub struct EndOfLoads {
    tried: Tried,
    owner: Option<Owner>,
}

/// What tells when the files were tried that a node loads once it listens. While there is one of a node that `start_owner` started,
/// the node's folder is its own.
#[derive(Drop)]
pub struct Loading {
    end: Arc<Handover<Tried>, Global>,
    owner: Option<Owner>,
}

impl Loading {
    // That of the thread that tells it there, over a folder that the node may own.
    pub(crate) fn new(end: Arc<Handover<Tried>, Global>, owner: Option<Owner>) -> Loading {
        Loading { end, owner }
    }

    /// Waits until they were tried. What the thread hands over no contract knows: `EndOfLoads` says what any such end is.
    pub fn join<R: Wait>(self, rt: &R) -> EndOfLoads {
        let Loading { end, owner } = self;
        EndOfLoads {
            tried: end.take(rt),
            owner,
        }
    }
}

// Looks at the folder for ever, after a rest of so many milliseconds each time, and notes the node's mark after each look. What
// fails at a look is done at a later one.
fn look_on<R: Wait + Clock, F: Folder, I: Incarnation, J: Begun>(
    rt: &R,
    alloc: Global,
    node: &DataNode<I>,
    latest: &Latest<J>,
    folder: &mut F,
    watch: &mut Watch,
    reporter: &mut Reporter,
    rest: u64,
)
    requires begun { J.mark.incarnation ≡ I.number }
    requires own { watch.old.seen.incarnation ≡ I.number }
    requires reached { mark_cmp J.mark watch.old.seen ≢ Greater }
{
    let mut look = 0_u64;
    for _ in rt.forever() {
        thread::sleep(rt, Duration::from_millis(rest));
        look = look.saturating_add(1);
        drop(watch.look(rt, alloc, node, folder, look, reporter));
        latest.note(rt, watch.seen());
        reporter.note(&watch.node_state());
    }
}

// What the loading thread of a node works with.
#[derive(Drop)]
pub(crate) struct Loader<I: Incarnation, J: Begun> {
    pub(crate) node: Arc<DataNode<I>, Global>,
    pub(crate) latest: Arc<Latest<J>, Global>,
    // The path of its folder.
    pub(crate) path: String,
    // The files that are loaded first.
    pub(crate) names: Vec<String>,
    // How long it rests before each look at the folder, in milliseconds, if it looks.
    pub(crate) rest: Option<u64>,
    pub(crate) watch: Watch,
    pub(crate) reporter: Reporter,
    // Where it tells that the files were tried that are loaded first.
    pub(crate) end: Arc<Handover<Tried>, Global>,
}

// What the loading thread of a node does: it tries the files that come first as a look does, so that one that the start has loaded
// is passed over; tells that it did; and then looks at the folder for ever, where the node watches it.
fn load_from<
    R: Files<File = File> + AllocGlobal + Wait + Clock + Copy,
    L: Device,
    I: Incarnation,
    J: Begun,
>(rt: &R, alloc: Global, loader: Loader<I, J>)
    requires begun { J.mark.incarnation ≡ I.number }
    requires own { loader.watch.seen.incarnation ≡ I.number }
    requires reached { mark_cmp J.mark loader.watch.seen ≢ Greater }
{
    let Loader {
        node,
        latest,
        path,
        names,
        rest,
        watch,
        reporter,
        end,
    } = loader;
    let mut folder: DiskFolder<R, L> = DiskFolder::new(*rt, path);
    let mut watch = watch;
    let mut reporter = reporter;
    // One that memory runs out for is passed over, as one that is refused.
    drop(watch.try_due(rt, &node, &mut folder, 0, &names, &mut reporter));
    latest.note(rt, watch.seen());
    reporter.note(&watch.node_state());
    end.give(rt, Tried(()));
    if let Some(rest) = rest {
        look_on(
            rt,
            alloc,
            &node,
            &latest,
            &mut folder,
            &mut watch,
            &mut reporter,
            rest,
        );
    }
}

// Starts the loading thread of a node.
pub(crate) fn start_loader<
    R: Files<File = File> + AllocGlobal + Host + Copy + Send + Sync + 'static,
    L: Device + Send + Sync + 'static,
    I: Incarnation + Send + Sync + 'static,
    J: Begun + Send + Sync + 'static,
>(rt: R, alloc: Global, loader: Loader<I, J>) -> Result<(), DeviceFailed>
where
    R::Dir: Send,
    requires begun { J.mark.incarnation ≡ I.number }
    requires own { loader.watch.seen.incarnation ≡ I.number }
    requires reached { mark_cmp J.mark loader.watch.seen ≢ Greater }
{
    let job = move ||
        requires { (J.mark.incarnation ≡ I.number) × (loader.watch.seen.incarnation ≡ I.number) × (mark_cmp J.mark loader.watch.seen ≢ Greater) }
    { load_from::<R, L, I, J>(&rt, alloc, loader) };
    match thread::spawn(&rt, job) {
        Ok(thread) => {
            drop(thread);
            Ok(())
        }
        Err(_) => Err(DeviceFailed),
    }
}
