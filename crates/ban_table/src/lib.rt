//! The bans that stand on one node: of each banned parent, the cancellation that banned it.
#![tactic(auto)]

ghost use Rattle.std.specs.Prelude.{◌≡◌, ◌≢◌, ◌↔◌, ℕ, Some, is_some, map, IfOk, IfSome};
ghost use Rattle.std.specs.BTreeMap.{IsOrdered};
ghost use Rattle.std.specs.FinMap as finite;
ghost use Rattle.task_ids.specs.Limits.{IsCancel};
ghost use Rattle.task_ids.specs.TaskIdOrder.{task_id_cmp};
ghost use Rattle.ban_table.specs.Bans.{ban_of, bans_of};

use std::alloc::{AllocError, Global};
use std::collections::BTreeMap;
use std::marker::Model;
use task_ids::TaskId;

/// The bans of a node, one for each banned parent. Contracts see a map from parents to the numbers of the
/// cancellations that banned them.
///
/// A step finds its ban without a scan of the others.
#[derive(Drop)]
pub struct BanTable {
    alloc: Global,
    bans: BTreeMap<TaskId, u32>,
}

impl Model for BanTable {
    ghost use Rattle.std.specs.Prelude.{ℕ, All};
    ghost use Rattle.std.specs.Coded.{coded_ℕ};
    ghost use Rattle.std.specs.BTreeMap.{values};
    ghost use Rattle.std.specs.FinMap as finite;
    ghost use Rattle.task_ids.specs.Limits.{IsCancel};
    ghost use Rattle.task_ids.specs.TaskIdOrder.{task_id_cmp, coded_task_id};

    ghost Value = { finite.FinMap task_id_cmp ℕ };

    ghost coded = { finite.code coded_task_id coded_ℕ };

    ghost view = { λ a. finite.from_entries a.bans.entries };

    ghost invariant = { λ a. All IsCancel (values a.bans) };
}

/// The answer of [`BanTable::put`].
#[derive(Clone, Copy, PartialEq, Eq)]
pub enum BanPut {
    /// The ban was put.
    Put,
    /// A ban of that parent stands, with this number, and nothing has changed.
    There(u32),
}

/// A ban as a list of bans shows it.
#[derive(Clone, Copy, PartialEq, Eq)]
pub struct Ban {
    /// The task whose children are to be refused or cancelled.
    pub parent: TaskId,
    /// The cancellation's number.
    pub cancel: u32,
}

impl BanTable {
    /// No ban yet, which takes no memory.
    pub fn new(alloc: Global) -> BanTable
        ensures { result ≡ finite.empty }
    {
        BanTable {
            alloc,
            bans: BTreeMap::new(alloc),
        }
    }

    /// Puts a ban of the parent, unless one stands. Where one stands, or memory runs out, nothing has changed.
    pub fn put(&mut self, parent: TaskId, cancel: u32) -> Result<BanPut, AllocError>
        requires { IsCancel cancel }
        ensures there { (standing : ℕ) → (result ≡ Ok (BanPut.There standing))
            ↔ (finite.get self.old parent ≡ Some standing) }
        ensures put { result ≡ Ok BanPut.Put → self.new ≡ finite.insert self.old parent cancel }
        ensures kept { result ≢ Ok BanPut.Put → self.new ≡ self.old }
    {
        if let Some(standing) = self.find(parent) {
            return Ok(BanPut::There(standing));
        }
        self.bans.insert(parent, cancel)?;
        Ok(BanPut::Put)
    }

    /// The cancellation that banned the parent, if a ban of it stands.
    pub fn find(&self, parent: TaskId) -> Option<u32>
        ensures found { result ≡ finite.get self.now parent }
        ensures number { IfSome result IsCancel }
    {
        self.bans.get(&parent).copied()
    }

    /// Takes the ban of the parent away, and says whether it stood.
    pub fn remove(&mut self, parent: TaskId) -> bool
        ensures stood { result ≡ is_some (finite.get self.old parent) }
        ensures removed { self.new ≡ finite.remove self.old parent }
    {
        self.bans.remove(&parent).is_some()
    }

    /// The bans by their parents' ids, ascending. It fails only for want of memory.
    pub fn list(&self) -> Result<Vec<Ban>, AllocError>
        ensures { IfOk result (λ list. list.items ≡ bans_of self.now) }
    {
        listed(self.alloc, &self.bans)
    }
}

fn listed(alloc: Global, bans: &BTreeMap<TaskId, u32>) -> Result<Vec<Ban>, AllocError>
    ensures list { IfOk result (λ list. list.items ≡ map ban_of bans.now.entries) }
    ensures ordered { IsOrdered task_id_cmp bans.now }
{
    bans.iter()
        .map(|(parent, cancel)| Ban {
            parent: *parent,
            cancel: *cancel,
        })
        .collect(alloc)
}
