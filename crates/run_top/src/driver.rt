// The driver of a script.
ghost use Rattle.std.specs.Prelude.{◌≡◌, IfOk};
ghost use Rattle.std.specs.HashSet.{contains_by};
ghost use Rattle.std.specs.Str.{bytes_eq};
ghost use Rattle.run_book.specs.Entries.{CanDrive};
ghost use Rattle.run_facts.specs.Inboxes.{IsPoolSize};
ghost use Rattle.run_driver.specs.Drives.{AreNotes};
ghost use Rattle.run_inboxes.specs.Ends.{SameEnds};

use node_link::Letter;
use run_book::LineNote;
use run_cluster::{Drive, Ends};
use run_driver::{LineGate, drive};
use run_facts::{Of, Run};
use script_lang::Command;
use std::alloc::Global;
use std::collections::HashSet;
use std::marker::{Model, PhantomData};
use std::sync::Wait;
use task_events::Stop;
use task_ids::Cluster;

/// A script that can be driven on its cluster: its cancels are those of the run. Contracts see its commands.
#[derive(Drop)]
pub(crate) struct Task<'s, W: Run> {
    cluster: Cluster,
    /// How many data workers each node has.
    workers: u32,
    script: &'s [Command],
    of: PhantomData<W>,
}

impl<'s, W: Run> Model for Task<'s, W> {
    ghost use Rattle.std.specs.Prelude.{List};
    ghost use Rattle.std.specs.Coded.{coded_list};
    ghost use Rattle.script_lang.specs.declared.command.Command.{Command};
    ghost use Rattle.script_lang.specs.contracts.command.Command as command;
    ghost use Rattle.run_book.specs.Entries.{CanDrive};
    ghost use Rattle.run_facts.specs.Inboxes.{IsPoolSize};

    ghost Value = { List Command };

    ghost coded = { coded_list command.the_row.coded };

    ghost view = { λ task. task.script.now };

    ghost invariant = { λ task. CanDrive W.cancels W.setting task.cluster.nodes task.script.now × IsPoolSize task.workers };
}

impl<'s, W: Run> Task<'s, W> {
    /// A script on its cluster, whose nodes have so many data workers each, from 1 to 4.
    pub(crate) fn new(cluster: &Cluster, workers: u32, script: &'s [Command]) -> Task<'s, W>
        requires can { CanDrive W.cancels W.setting cluster.now.nodes script.now }
        requires workers { IsPoolSize workers }
        ensures { result ≡ script.now }
    {
        Task {
            cluster: *cluster,
            workers,
            script,
            of: PhantomData,
        }
    }

    /// Drives it, where these indices are known, and gives what each command came to.
    fn drive<L: LineGate, R: Wait>(
        &self,
        rt: &R,
        alloc: Global,
        known: &HashSet<&str>,
        ends: &mut Ends<Letter<Of<W>>>,
        gate: &L,
    ) -> Result<Vec<LineNote>, Stop>
        ensures ends { SameEnds ends.old ends.new }
        ensures notes { IfOk result (λ notes. AreNotes W.cancels W.setting (λ index. contains_by (λ k. bytes_eq index k.now) known.now) self.now notes.items) }
    {
        drive(
            rt,
            alloc,
            &self.cluster,
            self.workers,
            known,
            self.script,
            ends,
            gate,
        )
    }
}

/// Drives a script, and keeps what each command came to.
#[derive(Drop)]
pub(crate) struct ScriptDriver<'k, 'd, 's, W: Run, L: LineGate + Drop> {
    pub(crate) alloc: Global,
    pub(crate) task: Task<'s, W>,
    /// The indices that there are.
    pub(crate) known: &'k HashSet<&'d str>,
    pub(crate) gate: L,
    pub(crate) notes: Vec<LineNote>,
}

impl<'k, 'd, 's, W: Run, L: LineGate + Drop> Drive<Of<W>> for ScriptDriver<'k, 'd, 's, W, L> {
    ghost use Rattle.std.specs.HashSet.{contains_by};
    ghost use Rattle.std.specs.Str.{bytes_eq};
    ghost use Rattle.run_driver.specs.Drives.{AreNotes};

    ghost done = { λ old new. AreNotes W.cancels W.setting (λ index. contains_by (λ k. bytes_eq index k.now) old.known.now) old.task new.notes.items };

    fn drive<R: Wait>(&mut self, rt: &R, ends: &mut Ends<Letter<Of<W>>>) -> Result<(), Stop> {
        self.notes = self
            .task
            .drive(rt, self.alloc, self.known, ends, &self.gate)?;
        Ok(())
    }
}
