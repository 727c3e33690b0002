// Changes of one mailbox of a tree.
ghost use Rattle.std.specs.Prelude.{List, ℕ};
ghost use Rattle.any_store.specs.Choice.{formats_of, chosen};
ghost use Rattle.mail_tree.specs.Changing.{FollowsChange, CommitsMailbox};
ghost use Rattle.store_trait.specs.Answers.{StoreCause};
ghost use Rattle.store_trait.specs.Changes.{CanChangeStore};
ghost use Rattle.store_trait.specs.OwnPaths.{MayChange, IsNoPath};
ghost use Rattle.store_trait.specs.Promises.{IsSame, BreaksBy, CanAsk, LeavesAlone, AnswersChange, ChangesStore, CommitsChange};

use any_store::AnyMailbox;
use file_model::Files;
use store_trait::{Change, StoreFault, change_store};

/// Does one change of an open mailbox.
pub fn change_mailbox<F: Files, S: AnyMailbox<F>>(
    store: &mut S,
    files: &mut F,
    change: &Change,
) -> Result<(), StoreFault>
    requires can { CanChangeStore (S.view store.old) change.now }
    requires standing { CanAsk (S.view store.old) (F.history files.old) }

    ensures answers { AnswersChange S.forms (S.view store.old) change.now result (F.history files.old) (F.history files.new) }
    ensures cause { StoreCause (F.faults files.old) (F.faults files.new) result }
    ensures breaks { BreaksBy (S.view store.old) (S.view store.new) result }

    ensures same { IsSame (S.view store.old) (S.view store.new) }
    ensures changes { ChangesStore S.forms (S.view store.old) (S.view store.new) change.now result (F.history files.old) (F.history files.new) }
    ensures leaves { LeavesAlone (MayChange (S.view store.old).driver (S.view store.old).path) IsNoPath result (F.history files.old) (F.history files.new) }
    ensures commits { CommitsChange S.forms (S.view store.old) change.now result (F.history files.old) (F.history files.new) }

    // Below any root in whose tree it is a mailbox, that tree goes on by the change.
    ensures follows { (root : List ℕ) → FollowsChange (formats_of S.forms chosen) root (S.view store.old) (S.view store.new) change.now result (F.history files.old) (F.history files.new) }
    ensures commits_tree { (root : List ℕ) → CommitsMailbox (formats_of S.forms chosen) root (S.view store.old) change.now result (F.history files.old) (F.history files.new) }
{
    change_store(store, files, change)
}
