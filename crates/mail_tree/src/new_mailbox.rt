// Mailboxes that are made.
ghost use Rattle.std.specs.Prelude.{◌≡◌, ◌≤◌, length, IfOk, IfErr, OnOk, IsTrue, Err, string_bytes};
ghost use Rattle.file_model.specs.Histories.{Now};
ghost use Rattle.file_model.specs.Paths.{child};
ghost use Rattle.store_trait.specs.OwnPaths.{MayClear};
ghost use Rattle.store_trait.specs.Promises.{IsOpenAt, Creates};
ghost use Rattle.any_store.specs.Choice.{formats_of, chosen};
ghost use Rattle.mail_tree.specs.Changes.{due_create, due_create_dir, created_tree};
ghost use Rattle.mail_tree.specs.Making.{IsFreeName};
ghost use Rattle.mail_tree.specs.Names.{IsName};
ghost use Rattle.mail_tree.specs.Promises.{ActsUndue, AnswersBy, ChangesTree, CommitsTree, LeavesBut, IsMadeFor, TreeCause, HasRoot, RefusesBy, is_given};

use crate::making::make_parents;
use crate::path::path_of;
use crate::sight::{broken, is_blocked, stands};
use crate::{Name, TreeFault};
use any_store::AnyMailbox;
use file_model::Files;
use mail_types::Driver;
use std::alloc::Global;

/// The path of a name at which nothing stands, and which nothing blocks.
fn free_path<F: Files, S: AnyMailbox<F>>(
    alloc: Global,
    files: &mut F,
    root: &str,
    name: &Name,
) -> Result<String, TreeFault>
    ensures path { IfOk result (λ path. string_bytes path ≡ child root.now name.now) }
    ensures name { OnOk result (IsName name.now) }
    ensures free { OnOk result (Now (F.history files.old) (λ w. IsFreeName root.now name.now w.disk)) }
    ensures refused { IfErr result (λ fault. RefusesBy (formats_of S.forms chosen) root.now (λ tree. due_create_dir tree name.now) fault (F.history files.old)) }
    ensures given { IfErr result (λ fault. IsTrue (is_given fault)) }
    ensures history { F.history files.new ≡ F.history files.old }
    ensures cause { TreeCause (F.faults files.old) (F.faults files.new) result }
{
    let path = path_of(alloc, root, name)?;
    if is_blocked::<F, S>(alloc, files, root, path.as_str())? {
        return Err(TreeFault::There);
    }
    if stands(files, path.as_str())? {
        return Err(TreeFault::There);
    }
    Ok(path)
}

/// Makes an empty mailbox of a driver that stands, and the directories above it that are missing.
#[tactic(auto, using(crate::proofs::Joined::acts_not))]
pub fn create<F: Files, S: AnyMailbox<F>>(
    alloc: Global,
    files: &mut F,
    root: &str,
    name: &Name,
    driver: Driver,
    fresh: u32,
) -> Result<S, TreeFault>
    requires known { S.forms.knows driver }
    requires fresh { 1 ≤ fresh }
    requires some { 1 ≤ length root.now }
    requires root { HasRoot root.now (F.history files.old) }

    ensures answer { AnswersBy (formats_of S.forms chosen) root.now (λ tree. due_create tree name.now driver) result (F.history files.old) }
    ensures acts { ActsUndue (formats_of S.forms chosen) root.now (λ tree. due_create tree name.now driver) (F.history files.old) (F.history files.new) }
    ensures given { IfErr result (λ fault. IsTrue (is_given fault)) }
    ensures created { IfOk result (λ store. Creates S.forms driver (child root.now name.now) (S.view store) fresh (F.history files.new)) }
    ensures made { IfOk result (λ store. IsOpenAt driver (child root.now name.now) (S.view store)) }
    ensures changes { ChangesTree (formats_of S.forms chosen) root.now (λ tree. created_tree tree name.now driver fresh) result (F.history files.old) (F.history files.new) }
    ensures leaves { LeavesBut (MayClear driver (child root.now name.now)) (IsMadeFor driver root.now name.now) result (F.history files.old) (F.history files.new) }
    ensures commits { CommitsTree (formats_of S.forms chosen) root.now (λ tree. created_tree tree name.now driver fresh) result (F.history files.old) (F.history files.new) }
    ensures cause { TreeCause (F.faults files.old) (F.faults files.new) result }
{
    // a driver of directories, of which none stands, would take a free directory too
    let path = free_path::<F, S>(alloc, files, root, name)?;
    make_parents::<F, S>(files, root, path.as_str())?;
    match S::create(alloc, files, path.as_str(), driver, fresh) {
        Ok(store) => Ok(store),
        Err(fault) => Err(broken(fault)),
    }
}
