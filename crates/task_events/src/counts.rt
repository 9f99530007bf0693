ghost use Rattle.std.specs.Prelude.{◌≡◌, ◌↔◌, ◌^◌, nat_lt, IsTrue, IsOk, IfOk, IfErr};
ghost use Rattle.std.specs.List.{list_all};
ghost use Rattle.task_events.specs.Counts.{Ascend, AreCounts, version_in};

use crate::reply::ShardCount;
use std::alloc::AllocError;
use std::marker::Model;

/// How many shards an index has at most.
const MAX_SHARDS: usize = 15;

/// A count of rows is below this.
const MAX_COUNT: u64 = 4_294_967_296;

/// What a context keeps of its shards, at most 15: each is below the next, and fewer than 2^32 rows match in it. Contracts see them as a
/// list.
#[derive(Drop)]
pub struct ShardCounts {
    counts: Vec<ShardCount>,
}

impl Model for ShardCounts {
    ghost use Rattle.std.specs.Prelude.{List};
    ghost use Rattle.std.specs.Coded.{coded_list};
    ghost use Rattle.task_events.specs.declared.reply.ShardCount.{ShardCount};
    ghost use Rattle.task_events.specs.contracts.reply.ShardCount as count_row;

    ghost Value = { List ShardCount };

    ghost coded = { coded_list count_row.the_row.coded };

    ghost use Rattle.task_events.specs.Counts.{AreCounts};

    ghost view = { λ a. a.counts.items };

    ghost invariant = { λ a. AreCounts a.counts.items };
}

impl ShardCounts {
    /// The shards, where they are at most 15, each is below the next, and fewer than 2^32 rows match in each. Where they are not they
    /// come back.
    pub fn new(counts: Vec<ShardCount>) -> Result<ShardCounts, Vec<ShardCount>>
        ensures counts { IsOk result ↔ AreCounts counts.items }
        ensures value { IfOk result (λ shards. shards ≡ counts.items) }
        ensures given_back { IfErr result (λ back. back ≡ counts) }
    {
        if are_counts(counts.as_slice()) {
            Ok(ShardCounts { counts })
        } else {
            Err(counts)
        }
    }

    /// The shards, of which each is below the next.
    pub fn as_slice(&self) -> &[ShardCount]
        ensures shards { result.now ≡ self.now }
        ensures counts { AreCounts self.now }
    {
        self.counts.as_slice()
    }

    /// Equal counts, of the same shards. It fails only for want of memory.
    pub fn copy(&self) -> Result<ShardCounts, AllocError>
        ensures { IfOk result (λ counts. counts ≡ self.now) }
    {
        let counts = Vec::from_slice(*self.counts.allocator(), self.counts.as_slice())?;
        Ok(ShardCounts { counts })
    }

    /// The version that was read of a shard, where it was read.
    pub fn version_of(&self, shard: u32) -> Option<u32>
        ensures { result ≡ version_in shard self.now }
    {
        version_among(self.counts.as_slice(), shard)
    }
}

/// Whether fewer than 2^32 rows match in each.
fn are_low(counts: &[ShardCount]) -> bool
    ensures { result ≡ list_all (λ n. nat_lt n.count (2 ^ 32)) counts.now }
{
    counts.iter().all(|count| count.count < MAX_COUNT)
}

/// Whether a context can keep them.
fn are_counts(counts: &[ShardCount]) -> bool
    ensures { IsTrue result ↔ AreCounts counts.now }
{
    counts.len() <= MAX_SHARDS && are_low(counts) && ascend(counts)
}

/// Whether each shard is below the next.
fn ascend(counts: &[ShardCount]) -> bool
    ensures { IsTrue result ↔ Ascend counts.now }
{
    counts.is_sorted_by(|one, next| one.shard < next.shard)
}

fn version_among(counts: &[ShardCount], shard: u32) -> Option<u32>
    ensures { result ≡ version_in shard counts.now }
{
    counts
        .iter()
        .find(|count| count.shard == shard)
        .map(|count| count.version)
}
