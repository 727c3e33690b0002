// One of the seven mailbox formats.
ghost use Rattle.std.specs.Prelude.{◌≡◌, ◌≢◌, ◌≤◌, ◌+◌, ◌⊎◌, ℕ, List, true, false, IfOk, IfErr, OnOk, IsErr};
ghost use Rattle.file_model.specs.Disk.{seen};
ghost use Rattle.file_model.specs.Images.{Image, node_at, nothing};
ghost use Rattle.file_model.specs.Histories.{Now, Ended};
ghost use Rattle.file_model.specs.Paths.{is_top, last_part};
ghost use Rattle.file_model.specs.Reserved.{is_reserved_name};
ghost use Rattle.mail_types.specs.declared.driver.Driver.{Driver};
ghost use Rattle.mail_types.specs.declared.driver.Keeps.{Keeps as KeepsTable};
ghost use Rattle.mail_types.specs.Drivers.{keeps_of};
ghost use Rattle.store_trait.specs.Answers.{Breaks, StoreCause, OpenCause};
ghost use Rattle.store_trait.specs.Forms.{grammar_of};
ghost use Rattle.store_trait.specs.OwnPaths.{MayRemove, MayClear, IsHomeOf, is_directory_driver};
ghost use Rattle.store_trait.specs.Meaning.{IsOfKind, IsFreeFor, IsRemoved};
ghost use Rattle.store_trait.specs.Promises.{LeavesAlone, RefusesOpen, IsEnough, IsOpenAt, Opens, Creates, CommitsCreation, CommitsRemoval};

use crate::{OpenFault, Store, StoreFault};
use file_model::Files;
use mail_types::{Driver, Keeps};
use std::alloc::Global;

/// One of the seven mailbox formats.
pub trait Format<F: Files>: Store<F> {
    ghost DRIVER: { Driver };

    const DRIVER: Driver;

    ghost KEEPS: { KeepsTable };

    const KEEPS: Keeps;

    /// Of mix: so many bytes are enough to open the files at a path.
    ghost enough: { List ℕ → Image → ℕ → Type 0 };

    /// Opens the mailbox at a path, under a fresh UIDVALIDITY where its UIDs don't last. It writes nothing.
    fn open(alloc: Global, files: &mut F, path: &str, fresh: u32) -> Result<Self, OpenFault>
    where
        Self: Sized,
        requires fresh { 1 ≤ fresh }
        requires below { is_top path.now ≡ false }
        requires kind { Now (F.history files.old) (λ w. (node_at (seen w.disk) path.now ≡ nothing) ⊎ IsOfKind DRIVER path.now (seen w.disk)) }

        ensures refused { IfErr result (λ fault. RefusesOpen (grammar_of Self.forms DRIVER path.now) DRIVER path.now fault (F.history files.old)) }
        ensures opened { IfOk result (λ store. Opens (grammar_of Self.forms DRIVER path.now) DRIVER path.now (Self.view store) fresh (F.history files.old)) }
        ensures made { IfOk result (λ store. IsOpenAt DRIVER path.now (Self.view store)) }
        ensures history { F.history files.new ≡ F.history files.old }
        ensures cause { OpenCause (F.faults files.old) (F.faults files.new) result }
        ensures reads { (n : ℕ) → Now (F.history files.old) (λ w. IsEnough enough (grammar_of Self.forms DRIVER path.now) DRIVER path.now (seen w.disk) n → (F.faults files.new).read ≤ (F.faults files.old).read + n) };

    /// Makes an empty mailbox where nothing stands, or for a format of directories in a directory of leftovers.
    /// Its refusals are `Failed` and `Memory`.
    fn create(alloc: Global, files: &mut F, path: &str, fresh: u32) -> Result<Self, StoreFault>
    where
        Self: Sized,
        requires fresh { 1 ≤ fresh }
        requires below { is_top path.now ≡ false }
        requires name { is_directory_driver DRIVER ≡ true → is_reserved_name (last_part path.now) ≡ false }
        requires free { Now (F.history files.old) (λ w. IsFreeFor DRIVER path.now (seen w.disk)) }

        ensures answer { IsErr result → Breaks result }
        ensures created { IfOk result (λ store. Creates Self.forms DRIVER path.now (Self.view store) fresh (F.history files.new)) }
        ensures made { IfOk result (λ store. IsOpenAt DRIVER path.now (Self.view store)) }
        ensures cause { StoreCause (F.faults files.old) (F.faults files.new) result }
        ensures leaves { LeavesAlone (MayClear DRIVER path.now) (IsHomeOf DRIVER path.now) result (F.history files.old) (F.history files.new) }
        ensures commits { CommitsCreation (grammar_of Self.forms DRIVER path.now) DRIVER path.now fresh result (F.history files.old) (F.history files.new) };

    /// Removes the mailbox's own files, well-formed or not, and its directory where nothing else stands in it.
    /// Its refusals are `Failed` and `Memory`.
    fn remove(alloc: Global, files: &mut F, path: &str) -> Result<(), StoreFault>
        requires below { is_top path.now ≡ false }
        requires kind { Now (F.history files.old) (λ w. (node_at (seen w.disk) path.now ≢ nothing) × IsOfKind DRIVER path.now (seen w.disk)) }

        ensures answer { IsErr result → Breaks result }
        ensures removed { OnOk result (Ended (λ start end. IsRemoved DRIVER path.now (seen end)) (F.history files.old) (F.history files.new)) }
        ensures cause { StoreCause (F.faults files.old) (F.faults files.new) result }
        ensures leaves { LeavesAlone (MayRemove DRIVER path.now) (IsHomeOf DRIVER path.now) result (F.history files.old) (F.history files.new) }
        ensures commits { CommitsRemoval DRIVER path.now result (F.history files.old) (F.history files.new) };

    /// It declares what its row of the table does.
    ghost keeps_is: { KEEPS ≡ keeps_of DRIVER };

    /// It knows its own driver, and no other.
    ghost knows_itself: { Self.forms.knows DRIVER };

    ghost knows_only: { (driver : Driver) → Self.forms.knows driver → driver ≡ DRIVER };
}
