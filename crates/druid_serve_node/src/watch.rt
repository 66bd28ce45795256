//! A node that watches its folder: it loads the segment files that come, and drops those that go.
//! It goes by names alone: a segment never changes, so a file is read once, and a look costs a
//! listing.
ghost use Rattle.std.specs.Prelude.{◌≡◌, ◌≢◌, List, ℕ, Err, IfErr, OnOk};
ghost use Rattle.std.specs.List.{FoldsTo};
ghost use Rattle.std.specs.declared.cmp.Ordering.TheVariants.{Greater};
ghost use Rattle.druid_segment_descriptor.specs.Mark.{mark_cmp};
ghost use Rattle.druid_folder.specs.Folder.{AreNames, names_of, faults_at, IsOwnFault};
ghost use Rattle.druid_serve_node.specs.Totals.{state_at};
ghost use Rattle.druid_serve_node.specs.Looks.{due_names, IsTried, IsGone, IsLook};

use crate::known_files::KnownFiles;
use crate::reporter::Reporter;
use druid_folder::{Folder, StoreFault};
use druid_node::{DataNode, Incarnation};
use druid_segment_descriptor::Mark;
use druid_telemetry_metrics::NodeState;
use std::alloc::{AllocError, Global};
use std::marker::Model;
use std::sync::Wait;
use std::time::Clock;

/// What a node that watches its folder has done so far: a contract sees what it knows of the files, and the mark of its last load
/// or drop.
#[derive(Drop)]
pub struct Watch {
    known: KnownFiles,
    seen: Mark,
}

impl Model for Watch {
    ghost use Rattle.druid_serve_node.specs.Looks.{Watched};

    ghost Value = { Watched };

    ghost view = { λ a. record { known = a.known; seen = a.seen } };
}

impl Watch {
    /// A watch from that mark on, at which the node has these files.
    pub fn new(known: KnownFiles, seen: Mark) -> Watch
        ensures { result ≡ record { known = known; seen = seen } }
    {
        Watch { known, seen }
    }

    /// The mark of the node's last load or drop.
    pub fn seen(&self) -> Mark
        ensures { result ≡ self.now.seen }
    {
        self.seen
    }

    /// What the node reports of its state.
    pub(crate) fn node_state(&self) -> NodeState
        ensures { result ≡ state_at self.now.seen self.now.known }
    {
        self.known.node_state(self.seen)
    }

    // Tries the file of that name at a look. It is noted as refused before, so that nothing has to be allocated once its segment is
    // loaded.
    fn try_file<R: Wait + Clock, F: Folder, I: Incarnation>(
        &mut self,
        rt: &R,
        node: &DataNode<I>,
        folder: &mut F,
        look: u64,
        name: &str,
        reporter: &mut Reporter,
    ) -> Result<(), AllocError>
        ensures tried { OnOk result (IsTried I.number look self.old name.now self.new) }
        ensures risen { mark_cmp self.old.seen self.new.seen ≢ Greater }
        ensures own { self.old.seen.incarnation ≡ I.number → self.new.seen.incarnation ≡ I.number }
        ensures content { F.is_honest folder.new → F.content folder.new ≡ F.content folder.old }
        ensures honest { F.is_honest folder.new → F.is_honest folder.old }
    {
        let Watch { known, seen } = self;
        known.refuse(look, name)?;
        match node.load_identified(rt, folder, name, seen) {
            Ok(file) => {
                reporter.load(rt, name);
                known.take(name, file);
            }
            Err(fault) => reporter.refuse(rt, name, &fault),
        }
        Ok(())
    }

    // Tries files at a look, one after another. One that memory runs out for is passed over.
    fn try_files<R: Wait + Clock, F: Folder, I: Incarnation>(
        &mut self,
        rt: &R,
        node: &DataNode<I>,
        folder: &mut F,
        look: u64,
        names: &[String],
        reporter: &mut Reporter,
    ) -> Result<(), AllocError>
        ensures tried { OnOk result (FoldsTo (IsTried I.number look) self.old (names_of names.now) self.new) }
        ensures risen { mark_cmp self.old.seen self.new.seen ≢ Greater }
        ensures own { self.old.seen.incarnation ≡ I.number → self.new.seen.incarnation ≡ I.number }
        ensures content { F.is_honest folder.new → F.content folder.new ≡ F.content folder.old }
        ensures honest { F.is_honest folder.new → F.is_honest folder.old }
    {
        let mut tried = Ok(());
        for name in names {
            let last = self.try_file(rt, node, folder, look, name.as_str(), reporter);
            tried = tried.and(last);
        }
        tried
    }

    /// Tries the segment files among these that are due at a look, one after another: one whose
    /// segment is loaded is passed over.
    ///
    /// # Errors
    ///
    /// Out of memory: a file that it runs out for is not tried, and where it runs out for the list
    /// of those that are due none is. `seen` does not fall.
    pub fn try_due<R: Wait + Clock, F: Folder, I: Incarnation>(
        &mut self,
        rt: &R,
        node: &DataNode<I>,
        folder: &mut F,
        look: u64,
        names: &[String],
        reporter: &mut Reporter,
    ) -> Result<(), AllocError>
        ensures tried { OnOk result (FoldsTo (IsTried I.number look) self.old (due_names look self.old.known (names_of names.now)) self.new) }
        ensures risen { mark_cmp self.old.seen self.new.seen ≢ Greater }
        ensures own { self.old.seen.incarnation ≡ I.number → self.new.seen.incarnation ≡ I.number }
        ensures content { F.is_honest folder.new → F.content folder.new ≡ F.content folder.old }
        ensures honest { F.is_honest folder.new → F.is_honest folder.old }
    {
        let due = self.known.due_names(look, names)?;
        self.try_files(rt, node, folder, look, &due, reporter)
    }

    // Lets go of a file that is gone: drops its segment, if that is loaded. Where the drop is refused, the file stays known, and is
    // let go of at a later look.
    fn forget<R: Wait + Clock, I: Incarnation>(
        &mut self,
        rt: &R,
        node: &DataNode<I>,
        name: &str,
        reporter: &mut Reporter,
    )
        ensures gone { IsGone I.number self.old name.now self.new }
        ensures risen { mark_cmp self.old.seen self.new.seen ≢ Greater }
        ensures own { self.old.seen.incarnation ≡ I.number → self.new.seen.incarnation ≡ I.number }
    {
        let Watch { known, seen } = self;
        let Some(file) = known.loaded(name) else {
            reporter.let_go(rt, name, false);
            known.forget(name);
            return;
        };
        if node.drop_segment(rt, file.id(), seen).is_ok() {
            reporter.let_go(rt, name, true);
            known.forget(name);
        }
    }

    // Lets go of files that are gone, one after another.
    fn forget_files<R: Wait + Clock, I: Incarnation>(
        &mut self,
        rt: &R,
        node: &DataNode<I>,
        names: &[String],
        reporter: &mut Reporter,
    )
        ensures gone { FoldsTo (IsGone I.number) self.old (names_of names.now) self.new }
        ensures risen { mark_cmp self.old.seen self.new.seen ≢ Greater }
        ensures own { self.old.seen.incarnation ≡ I.number → self.new.seen.incarnation ≡ I.number }
    {
        for name in names {
            self.forget(rt, node, name.as_str(), reporter);
        }
    }

    /// A look at the folder: tries the segment files that are due, and then drops the segments
    /// whose files are gone. What is refused of a file, or by the node, is no fault: the file is
    /// tried again at later looks, after 1, 2, 4 .. looks and at most 64.
    ///
    /// # Errors
    ///
    /// O1 where the names of the files cannot be read, which the folder's device counts as a
    /// failure: nothing is done. O9: some of it may be done, and a later look does the rest. `seen`
    /// does not fall.
    pub fn look<R: Wait + Clock, F: Folder, I: Incarnation>(
        &mut self,
        rt: &R,
        alloc: Global,
        node: &DataNode<I>,
        folder: &mut F,
        look: u64,
        reporter: &mut Reporter,
    ) -> Result<(), StoreFault>
        ensures looked { OnOk result ((found : List (List ℕ)) × IsLook I.number look found self.old self.new
            × (F.is_honest folder.new → AreNames (F.content folder.old) found)) }
        ensures fault { IfErr result IsOwnFault }
        ensures unread { result ≡ Err StoreFault.Device → (F.faults folder.new ≡ faults_at StoreFault.Device (F.faults folder.old)) × (self.new ≡ self.old) }
        ensures risen { mark_cmp self.old.seen self.new.seen ≢ Greater }
        ensures own { self.old.seen.incarnation ≡ I.number → self.new.seen.incarnation ≡ I.number }
        ensures content { F.is_honest folder.new → F.content folder.new ≡ F.content folder.old }
        ensures honest { F.is_honest folder.new → F.is_honest folder.old }
    {
        let found = match folder.list(alloc) {
            Ok(found) => found,
            Err(fault) => return Err(fault),
        };
        let gone = self.known.gone_names(&found)?;
        self.try_due(rt, node, folder, look, &found, reporter)?;
        self.forget_files(rt, node, &gone, reporter);
        Ok(())
    }
}
