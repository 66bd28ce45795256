//! The number of a node's incarnation, which is stable in a folder before it is given.
ghost use Rattle.std.specs.Prelude.{◌≡◌, ◌≢◌, Option, ◌⊎◌, ◌+◌, ◌-◌, ◌^◌, ◌<◌, ◌≤◌, ◌++◌, ℕ, List, Some, None, IfOk, OnOk, IsErrOf, IfErr, IfSome, IfNone, string_bytes};
ghost use Rattle.std.specs.Fmt.{decimal};
ghost use Rattle.druid_folder.specs.Folder.{Content, with_file, renamed, Torn, DoneOrNot, Only, SameLeft, LeavesOnly, faults_after, IsOwnFault};
ghost use Rattle.druid_folder_incarnation.specs.Incarnation.{number_file, next_file, number_text, HasNumber, Answers, IsSameOrNext, IsKeptOrNext};
ghost use Rattle.druid_folder_incarnation.specs.KeptFile.{IsKeptOr};

use druid_base::number_of;
use druid_folder::{Folder, StoreFault};
use std::alloc::{AllocError, Global};

/// The file that has the number.
const NUMBER_FILE: &str = "incarnation";

/// The file that a number is written to first. It is never read.
const NEXT_FILE: &str = "incarnation.tmp";

/// A number for a start of the program that no earlier start was given: the one after the number in
/// the file `incarnation` of the folder, or 1 where there is no such file. That file then has it,
/// and only then is it answered.
///
/// # Errors
///
/// O1 or O9 of the read; then O2 where the file is there and is no number from 1 to 2^64 - 1 in
/// decimal digits, with no zero in front, and a line feed; O3 where it is 2^64 - 1; then O1 or O9
/// of the steps after (that none comes between is read in the code). O2 and O3 leave the folder as
/// it was. O1 and O9 leave `incarnation` as it was or with the next number, which nobody was given,
/// and all other files but `incarnation.tmp` as they were; a stop at any moment leaves
/// `incarnation` as it might have before, or with the next number.
pub fn next_incarnation<F: Folder>(alloc: Global, folder: &mut F) -> Result<u64, StoreFault>
    ensures answer { F.is_honest folder.new → Answers (F.content folder.old number_file) result }
    ensures stored { F.is_honest folder.new
        → IfOk result (λ n. F.content folder.new number_file ≡ Some (number_text n)) }

    // Whatever the answer is, the file is as it was or has the next number, and the other files are
    // as they were.
    ensures kept { F.is_honest folder.new
        → IsSameOrNext (F.content folder.old number_file) (F.content folder.new number_file) }
    ensures others { F.is_honest folder.new
        → (name : List ℕ) → name ≢ number_file → name ≢ next_file
        → F.content folder.new name ≡ F.content folder.old name }
    ensures refused { F.is_honest folder.new
        → IsErrOf result StoreFault.BadNumber ⊎ IsErrOf result StoreFault.AtEnd
        → (F.content folder.new ≡ F.content folder.old)
        × SameLeft (F.may_leave folder.old) (F.may_leave folder.new) }

    // A stop afterwards leaves the number that was answered. A stop at any moment of the call
    // leaves the file as a stop might have left it before, or with the next number.
    ensures stable { F.is_honest folder.new → IfOk result
        (λ n. (c : Content) → F.may_leave folder.new c → c number_file ≡ Some (number_text n)) }
    ensures any_moment { F.is_honest folder.new
        → LeavesOnly F.moment F.left_since folder.old folder.new
        (IsKeptOrNext (F.may_leave folder.old) (F.content folder.old number_file)) }

    ensures honest { F.is_honest folder.new → F.is_honest folder.old }
    ensures counted { F.faults folder.new ≡ faults_after result (F.faults folder.old) }
    ensures own_names { IsErrOf result StoreFault.BadName → ⊥ }
{
    let before = read_number(alloc, folder)?;
    let number = number_after(before)?;
    let text = number_text(alloc, number)?;
    keep(folder, text.as_str())?;
    Ok(number)
}

/// A file has one number at most. So where neither the device nor memory fails, there is one answer
/// that `next_incarnation` may give.
pub fn one_number()
    ensures { (file : Option (List ℕ)) (m n : ℕ) → HasNumber file m → HasNumber file n → m ≡ n }
{}

// The number after one, which does not allocate.
fn number_after(before: u64) -> Result<u64, StoreFault>
    ensures next { IfOk result (λ n. n ≡ before + 1) }
    ensures at_end { IfErr result (λ e. (e ≡ StoreFault.AtEnd) × (before ≡ 2 ^ 64 - 1)) }
{
    before.checked_add(1).ok_or(StoreFault::AtEnd)
}

// The number that the file has.
fn read_number<F: Folder>(alloc: Global, folder: &mut F) -> Result<u64, StoreFault>
    ensures number { F.is_honest folder.new
        → IfOk result (HasNumber (F.content folder.old number_file)) }
    ensures bad { F.is_honest folder.new → IsErrOf result StoreFault.BadNumber
        → (n : ℕ) → HasNumber (F.content folder.old number_file) n → ⊥ }
    ensures not_at_end { IsErrOf result StoreFault.AtEnd → ⊥ }
    ensures own_name { IsErrOf result StoreFault.BadName → ⊥ }
    ensures unchanged { F.is_honest folder.new → F.content folder.new ≡ F.content folder.old }
    ensures stop { F.is_honest folder.new
        → SameLeft (F.may_leave folder.old) (F.may_leave folder.new) }
    ensures any_moment { F.is_honest folder.new
        → LeavesOnly F.moment F.left_since folder.old folder.new (F.may_leave folder.old) }
    ensures honest { F.is_honest folder.new → F.is_honest folder.old }
    ensures counted { F.faults folder.new ≡ faults_after result (F.faults folder.old) }
{
    match folder.read(alloc, NUMBER_FILE)? {
        None => Ok(0),
        Some(bytes) => number_in(&bytes).ok_or(StoreFault::BadNumber),
    }
}

// Writes a text to the file that is never read, and makes it stable.
fn stage<F: Folder>(folder: &mut F, text: &str) -> Result<(), StoreFault>
    ensures staged { F.is_honest folder.new → OnOk result
        ((F.content folder.new ≡ with_file (F.content folder.old) next_file (Some text.now))
        × Only (F.content folder.new) (F.may_leave folder.new)) }
    ensures torn { F.is_honest folder.new
        → Torn next_file (F.content folder.old) (F.content folder.new) }
    ensures any_moment { F.is_honest folder.new
        → LeavesOnly F.moment F.left_since folder.old folder.new
        (λ c. (d : Content) × F.may_leave folder.old d × Torn next_file d c) }
    ensures honest { F.is_honest folder.new → F.is_honest folder.old }
    ensures counted { F.faults folder.new ≡ faults_after result (F.faults folder.old) }
    ensures fault { IfErr result IsOwnFault }
{
    folder.write(NEXT_FILE, text.as_bytes())?;
    folder.sync()
}

// Gives that file the name of the one that has the number, and makes that stable.
fn put_in_place<F: Folder>(folder: &mut F) -> Result<(), StoreFault>
    ensures placed { F.is_honest folder.new → OnOk result
        ((F.content folder.new ≡ renamed next_file number_file (F.content folder.old))
        × Only (F.content folder.new) (F.may_leave folder.new)) }
    ensures failed { F.is_honest folder.new
        → DoneOrNot (renamed next_file number_file) (F.content folder.old) (F.content folder.new) }
    ensures any_moment { F.is_honest folder.new
        → LeavesOnly F.moment F.left_since folder.old folder.new
        (λ c. (d : Content) × F.may_leave folder.old d
        × DoneOrNot (renamed next_file number_file) d c) }
    ensures honest { F.is_honest folder.new → F.is_honest folder.old }
    ensures counted { F.faults folder.new ≡ faults_after result (F.faults folder.old) }
    ensures fault { IfErr result IsOwnFault }
{
    folder.rename(NEXT_FILE, NUMBER_FILE)?;
    folder.sync()
}

// Puts a text into the file that has the number. A stop at any moment leaves that file as it was,
// or the whole text.
fn keep<F: Folder>(folder: &mut F, text: &str) -> Result<(), StoreFault>
    ensures stored { F.is_honest folder.new
        → OnOk result (F.content folder.new number_file ≡ Some text.now) }
    ensures kept { F.is_honest folder.new
        → (F.content folder.new number_file ≡ F.content folder.old number_file)
        ⊎ (F.content folder.new number_file ≡ Some text.now) }
    ensures others { F.is_honest folder.new
        → (name : List ℕ) → name ≢ number_file → name ≢ next_file
        → F.content folder.new name ≡ F.content folder.old name }
    ensures stable { F.is_honest folder.new
        → OnOk result ((c : Content) → F.may_leave folder.new c → c number_file ≡ Some text.now) }
    ensures any_moment { F.is_honest folder.new
        → LeavesOnly F.moment F.left_since folder.old folder.new
        (IsKeptOr (F.may_leave folder.old) text.now) }
    ensures honest { F.is_honest folder.new → F.is_honest folder.old }
    ensures counted { F.faults folder.new ≡ faults_after result (F.faults folder.old) }
    ensures fault { IfErr result IsOwnFault }
{
    stage(folder, text)?;
    put_in_place(folder)
}

// The number that the bytes of a file spell.
fn number_in(bytes: &[u8]) -> Option<u64>
    ensures found { IfSome result (HasNumber (Some bytes.now)) }
    ensures none { IfNone result ((n : ℕ) → HasNumber (Some bytes.now) n → ⊥) }
{
    let (last, digits) = bytes.split_last()?;
    if *last != b'\n' {
        return None;
    }
    decimal_in(digits)
}

// The number above 0 that these bytes spell in decimal digits, with no zero in front.
fn decimal_in(digits: &[u8]) -> Option<u64>
    ensures found { IfSome result (λ n. (1 ≤ n) × (n < 2 ^ 64) × (digits.now ≡ decimal n)) }
    ensures none { IfNone result ((n : ℕ) → 1 ≤ n → n < 2 ^ 64 → digits.now ≡ decimal n → ⊥) }
{
    let number = number_of(digits)?;
    if number == 0 {
        return None;
    }
    Some(number)
}

fn number_text(alloc: Global, n: u64) -> Result<String, AllocError>
    ensures { IfOk result (λ text. string_bytes text ≡ number_text n) }
{
    format!(in alloc; "{n}\n")
}
