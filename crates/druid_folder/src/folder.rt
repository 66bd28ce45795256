//! Folders of files, as a trait: what stands on one waits for no disk.
ghost use Rattle.std.specs.Prelude.{◌≡◌, ◌⊎◌, ◌&&◌, IsErrOf, ℕ, ◌+◌, ◌≤◌, List, false, take, length, None, IfOk, IfErr, OnOk, OnErr, IfSome, IsSome, Some, MatchResult, All};
ghost use Rattle.druid_folder.specs.declared.fault.StoreFault.TheVariants.{Memory};
ghost use Rattle.druid_folder.specs.FileName.{is_file_name, IsFileName};
ghost use Rattle.druid_folder.specs.Folder.{Content, with_file, without, renamed, Torn, DoneOrNot, Follows, Only, SameLeft, Elapses, max_file, read_part, bytes_read, names_of, faults_after, IsOwnFault, AreInOrder, AreNames};

use crate::StoreFault;
use std::alloc::Global;

/// The most bytes that a file is to have. A read gives one more of a longer file.
pub const MAX_FILE: usize = 16_777_216;

/// A folder of files, without folders in it.
///
/// What the clauses say of its files holds of a folder that has been honest so far, the call
/// included: one that gave back what was written, and of which a stop (a loss of power, or the end
/// of the process) leaves what `may_leave` says, and nothing else.
///
/// Errors: O1 where the device failed, which `faults` counts; O4 where what a file is to be called
/// is no name of a file, and then nothing is done; and O9.
pub trait Folder {
    /// Whether it has been honest so far. Once it was not, no call makes it so again.
    ghost is_honest: { Self → Type 0 };

    /// What is read now.
    ghost content: { Self → Content };

    /// What a stop now may leave.
    ghost may_leave: { Self → Content → Type 0 };

    /// The moment, as a number that does not fall.
    ghost moment: { Self → ℕ };

    /// What a stop at some moment from that one on might have left, during a call or between two.
    ghost left_since: { Self → ℕ → Content → Type 0 };

    /// How often the device has failed; at 2^64 - 1 it stays.
    ghost faults: { Self → ℕ };

    /// The names of its files, in the order of their bytes.
    ///
    /// # Errors
    ///
    /// O1 or O9. Leaves the files, and what a stop may leave.
    fn list(&mut self, alloc: Global) -> Result<Vec<String>, StoreFault>
        ensures file_names { IfOk result (λ names. All IsFileName (names_of names.items)) }
        ensures order { IfOk result (λ names. AreInOrder (names_of names.items)) }
        ensures names { is_honest self.new
            → IfOk result (λ names. AreNames (content self.old) (names_of names.items)) }

        ensures unchanged { is_honest self.new → content self.new ≡ content self.old }
        ensures stop { is_honest self.new → SameLeft (may_leave self.old) (may_leave self.new) }
        ensures time { is_honest self.new → Elapses (moment self.old) (moment self.new)
            (left_since self.old) (left_since self.new) (may_leave self.new) }
        ensures honest { is_honest self.new → is_honest self.old }
        ensures counted { faults self.new ≡ faults_after result (faults self.old) }
        ensures fault { IfErr result IsOwnFault };

    /// The bytes of a file, or of a file longer than 16 MiB its first 16 MiB and one byte more.
    ///
    /// # Errors
    ///
    /// None where there is no such file, as under a name that no file can have. O1 or O9. Leaves
    /// the files, and what a stop may leave.
    fn read(&mut self, alloc: Global, name: &str) -> Result<Option<Vec<u8>>, StoreFault>
        ensures no_name { is_file_name name.now ≡ false
            → MatchResult result (λ found. found ≡ None) (λ e. e ≡ Memory) }
        ensures bound { IfOk result (λ found.
            IfSome found (λ bytes. length bytes.items ≤ max_file + 1)) }
        ensures found { is_honest self.new
            → IfOk result (λ found. bytes_read found ≡ read_part (content self.old name.now)) }

        ensures unchanged { is_honest self.new → content self.new ≡ content self.old }
        ensures stop { is_honest self.new → SameLeft (may_leave self.old) (may_leave self.new) }
        ensures time { is_honest self.new → Elapses (moment self.old) (moment self.new)
            (left_since self.old) (left_since self.new) (may_leave self.new) }
        ensures honest { is_honest self.new → is_honest self.old }
        ensures counted { faults self.new ≡ faults_after result (faults self.old) }
        ensures fault { IfErr result IsOwnFault };

    /// Makes a file of these bytes, in the place of one that has the name. Until the next sync that
    /// succeeds, a stop may leave any bytes in it, or no such file.
    ///
    /// # Errors
    ///
    /// O4: leaves all as it was. O1 or O9: that file has any bytes or is not there, and all others
    /// are as they were.
    fn write(&mut self, name: &str, bytes: &[u8]) -> Result<(), StoreFault>
        ensures bad_name { is_file_name name.now ≡ false → IsErrOf result StoreFault.BadName }
        ensures refused { is_file_name name.now ≡ false → is_honest self.new
            → (content self.new ≡ content self.old)
            × SameLeft (may_leave self.old) (may_leave self.new) }
        ensures written { is_honest self.new → OnOk result
            (content self.new ≡ with_file (content self.old) name.now (Some bytes.now)) }
        ensures failed { is_honest self.new
            → OnErr result (Torn name.now (content self.old) (content self.new)) }
        ensures stop { is_honest self.new
            → Follows (Torn name.now) (may_leave self.old) (may_leave self.new) }
        ensures time { is_honest self.new → Elapses (moment self.old) (moment self.new)
            (left_since self.old) (left_since self.new) (may_leave self.new) }
        ensures honest { is_honest self.new → is_honest self.old }
        ensures counted { faults self.new ≡ faults_after result (faults self.old) }
        ensures fault { IsFileName name.now → IfErr result IsOwnFault };

    /// Makes all that is read stable: from then on a stop leaves it as it is.
    ///
    /// # Errors
    ///
    /// O1 or O9. Leaves the files; a stop may leave nothing that it might not have left before.
    fn sync(&mut self) -> Result<(), StoreFault>
        ensures stable { is_honest self.new
            → OnOk result (Only (content self.old) (may_leave self.new)) }
        ensures unchanged { is_honest self.new → content self.new ≡ content self.old }
        ensures stop { is_honest self.new
            → (c : Content) → may_leave self.new c → may_leave self.old c }
        ensures time { is_honest self.new → Elapses (moment self.old) (moment self.new)
            (left_since self.old) (left_since self.new) (may_leave self.new) }
        ensures honest { is_honest self.new → is_honest self.old }
        ensures counted { faults self.new ≡ faults_after result (faults self.old) }
        ensures fault { IfErr result IsOwnFault };

    /// Gives a file another name, in the place of a file that has it. Until the next sync that
    /// succeeds, a stop may leave it undone.
    ///
    /// # Errors
    ///
    /// O4: leaves all as it was. O1, also where there is no such file, or O9: it is done or it is
    /// not.
    fn rename(&mut self, from: &str, to: &str) -> Result<(), StoreFault>
        ensures bad_name { (is_file_name from.now && is_file_name to.now) ≡ false
            → IsErrOf result StoreFault.BadName }
        ensures refused { (is_file_name from.now && is_file_name to.now) ≡ false
            → is_honest self.new → (content self.new ≡ content self.old)
            × SameLeft (may_leave self.old) (may_leave self.new) }
        ensures there { is_honest self.new → OnOk result (IsSome (content self.old from.now)) }
        ensures done { is_honest self.new
            → OnOk result (content self.new ≡ renamed from.now to.now (content self.old)) }
        ensures failed { is_honest self.new → OnErr result
            (DoneOrNot (renamed from.now to.now) (content self.old) (content self.new)) }
        ensures stop { is_honest self.new → Follows (DoneOrNot (renamed from.now to.now))
            (may_leave self.old) (may_leave self.new) }
        ensures time { is_honest self.new → Elapses (moment self.old) (moment self.new)
            (left_since self.old) (left_since self.new) (may_leave self.new) }
        ensures honest { is_honest self.new → is_honest self.old }
        ensures counted { faults self.new ≡ faults_after result (faults self.old) }
        ensures fault { IsFileName from.now → IsFileName to.now
            → IfErr result IsOwnFault };

    /// Removes a file, if there is one of that name. Until the next sync that succeeds, a stop may
    /// leave it there.
    ///
    /// # Errors
    ///
    /// O4: leaves all as it was. O1 or O9: it is done or it is not.
    fn remove(&mut self, name: &str) -> Result<(), StoreFault>
        ensures bad_name { is_file_name name.now ≡ false → IsErrOf result StoreFault.BadName }
        ensures refused { is_file_name name.now ≡ false → is_honest self.new
            → (content self.new ≡ content self.old)
            × SameLeft (may_leave self.old) (may_leave self.new) }
        ensures done { is_honest self.new
            → OnOk result (content self.new ≡ without name.now (content self.old)) }
        ensures failed { is_honest self.new → OnErr result
            (DoneOrNot (without name.now) (content self.old) (content self.new)) }
        ensures stop { is_honest self.new
            → Follows (DoneOrNot (without name.now)) (may_leave self.old) (may_leave self.new) }
        ensures time { is_honest self.new → Elapses (moment self.old) (moment self.new)
            (left_since self.old) (left_since self.new) (may_leave self.new) }
        ensures honest { is_honest self.new → is_honest self.old }
        ensures counted { faults self.new ≡ faults_after result (faults self.old) }
        ensures fault { IsFileName name.now → IfErr result IsOwnFault };

    /// How often the device has failed; at 2^64 - 1 it stays.
    fn faults(&self) -> u64
        ensures { result ≡ faults self.now };

    /// What is read now is one of the contents that a stop may leave.
    ghost may_stay: { (folder : Self) → is_honest folder → may_leave folder (content folder) };

    /// This moment is one of those since an earlier one.
    ghost counts_now: { (folder : Self) (t : ℕ) (c : Content) → is_honest folder
        → t ≤ moment folder → may_leave folder c → left_since folder t c };

    /// Since this moment there is no other.
    ghost only_now: { (folder : Self) (c : Content) → is_honest folder
        → left_since folder (moment folder) c → may_leave folder c };
}
