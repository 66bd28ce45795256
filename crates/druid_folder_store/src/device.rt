ghost use Rattle.std.specs.Prelude.{ℕ, List};
ghost use Rattle.druid_folder_store.specs.Event.{Event};
ghost use Rattle.druid_folder.specs.Folder.{Content, nothing};
ghost use Rattle.druid_folder_store.specs.Model.{AreRight, IsHonestModel};

use std::marker::Brand;

/// What happens on the device under one [`crate::DiskFolder`], which no code can know. A type
/// parameter stands for it, so that what is proved holds whatever it is.
pub trait Device {
    /// What is read after so many calls.
    ghost content: { ℕ → Content };

    /// What a stop may leave that comes after so many calls, and before the next.
    ghost left: { ℕ → Content → Type 0 };

    /// What a stop may leave that comes during the call after so many.
    ghost during: { ℕ → Content → Type 0 };
}

// No folder is on this one: each call that makes a folder picks its device.
impl Device for Brand {
    ghost content = { λ n. nothing };

    ghost left = { λ n c. ⊥ };

    ghost during = { λ n c. ⊥ };
}

/// A device can be honest: one that obeys is, in all calls whose answers are right.
pub fn honest_model()
    ensures { (calls : List Event) → AreRight calls → IsHonestModel calls }
{}
