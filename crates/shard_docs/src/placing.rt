ghost use Rattle.std.specs.Prelude.{◌≡◌, ◌<◌, ◌+◌, ◌%◌};
ghost use Rattle.task_ids.specs.Placing as placed;

/// The hash of an id: from 0, 31 times the hash so far and the next byte, below 2^32.
pub fn hash_id(id: &[u8]) -> u32
    ensures { result ≡ placed.hash_id id.now }
{
    let mut hash = 0u32;
    for byte in id {
        hash = hash.wrapping_mul(31).wrapping_add(u32::from(*byte));
    }
    hash
}

/// The shard of a document, from 0, where its index has so many shards.
pub fn shard_of(id: &[u8], shards: u32) -> u32
    requires { 0 < shards }
    ensures { result ≡ placed.shard_of id.now shards }
{
    hash_id(id) % shards
}

/// The slice of a document, from 0, of so many slices of an index with so many shards.
pub fn slice_of(id: &[u8], shards: u32, slices: u32) -> u32
    requires shards { 0 < shards }
    requires slices { 0 < slices }
    ensures { result ≡ placed.slice_of id.now shards slices }
{
    hash_id(id) / shards % slices
}

/// The node of a shard, from 1, of so many nodes.
pub fn node_of(shard: u32, nodes: u32) -> u32
    requires { 0 < nodes }
    ensures { result ≡ placed.node_of shard nodes }
{
    1 + shard % nodes
}
