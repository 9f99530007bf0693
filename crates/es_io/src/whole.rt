// A whole text, read to its end or written to its end.
ghost use Rattle.std.specs.Prelude.{◌≡◌, ℕ, ◌<◌, ◌≤◌, ◌↔◌, [], Some, length, take, drop, IfOk, OnOk, IfErr, OnErr, IfSome, vec_len};
ghost use Rattle.es_io.specs.Bytes.{Appends, IfGave};
ghost use Rattle.es_io.specs.Count.{Rose};
ghost use Rattle.es_io.specs.ReadAll.{OnReadFault, IfTooLong};
ghost use Rattle.es_io.specs.declared.whole.ReadAll.TheVariants.{ReadFault, TooLong, Memory};

use crate::{Failed, Sink, Source};
use std::alloc::{AllocError, Global};
use thiserror::Error;

// The bytes that one read has room for.
const ROOM: usize = 65536;

/// Why a source could not be read to its end.
#[derive(Debug, Drop, PartialEq, Eq, Error)]
pub enum ReadAll {
    /// The source failed.
    #[error("the source failed")]
    ReadFault,
    /// The source gave more bytes than this limit.
    #[error("the source gave more than {0} bytes")]
    TooLong(usize),
    /// No memory was found for the bytes.
    #[error("no memory for the bytes of the source")]
    Memory,
}

impl From<AllocError> for ReadAll {
    ghost from_gives = { λ _ e. e ≡ Memory };

    fn from(_: AllocError) -> Self {
        ReadAll::Memory
    }
}

impl From<Failed> for ReadAll {
    ghost from_gives = { λ _ e. e ≡ ReadFault };

    fn from(_: Failed) -> Self {
        ReadAll::ReadFault
    }
}

/// A sink failed after it had taken this many bytes of those that it was given.
#[derive(Clone, Copy, Debug, PartialEq, Eq)]
pub struct WroteFault {
    /// The number of bytes that the sink took: they are the first ones.
    pub sent: usize,
}

// A buffer of n bytes.
fn make_room(alloc: Global, n: usize) -> Result<Vec<u8>, AllocError>
    ensures { IfOk result (λ room. vec_len room ≡ n) }
{
    vec![in alloc; 0; n]
}

/// All bytes of a source up to its end, where these are at most `limit` bytes.
///
/// It is `TooLong` with the limit exactly where the source gave more than that, `ReadFault` exactly where the source has
/// failed in this call, and `Memory` where no room was found before either came. After an error the source has given some
/// first bytes of what was left, and these are lost.
pub fn read_all<S: Source>(alloc: Global, source: &mut S, limit: usize) -> Result<Vec<u8>, ReadAll>
    ensures all { IfOk result (λ text. IfSome (S.left source.old) (λ bytes. text.items ≡ bytes)) }
    ensures ended { OnOk result (IfSome (S.left source.old) (λ bytes. S.left source.new ≡ Some [])) }
    ensures within { IfOk result (λ text. length text.items ≤ limit) }

    // `TooLong` exactly where the source gave more than the limit, whatever memory there was.
    ensures too_long { IfGave (S.left source.old) (S.left source.new) (λ n. limit < n ↔ result ≡ Err (TooLong limit)) }
    ensures limit { IfTooLong result (λ n. n ≡ limit) }
    ensures longer { IfTooLong result (λ n. IfSome (S.left source.old) (λ bytes. limit < length bytes)) }
    ensures fits { OnOk result (IfSome (S.left source.old) (λ bytes. length bytes ≤ limit)) }

    // `ReadFault` exactly where the source has failed in this call, whatever memory there was.
    ensures fault { OnReadFault result (Rose (S.faults source.old) (S.faults source.new)) }
    ensures told { S.faults source.old < S.faults source.new → result ≡ Err ReadFault }
    ensures monotone { S.faults source.old ≤ S.faults source.new }

    // Whatever the answer, some first bytes are gone and no others.
    ensures rest { IfSome (S.left source.old) (λ bytes. (k : ℕ) × (S.left source.new ≡ Some (drop k bytes))) }
{
    let mut room = make_room(alloc, ROOM)?;
    let mut text = Vec::new(alloc);
    // Every turn takes a byte or ends the call, so the bytes that the limit still allows get fewer.
    loop {
        let n = source.read(&mut room)?;
        if n == 0 {
            return Ok(text);
        }
        if n > limit - text.len() {
            return Err(ReadAll::TooLong(limit));
        }
        text.extend_from_slice(&room[..n])?;
    }
}

/// Writes all of `bytes` to a sink, in order. It takes no memory.
///
/// It fails only where the sink has failed in this call. The sink has then taken exactly the first `sent` bytes.
pub fn write_all_of<K: Sink>(sink: &mut K, bytes: &[u8]) -> Result<(), WroteFault>
    ensures all { OnOk result (Appends (K.written sink.old) (K.written sink.new) bytes.now) }
    ensures prefix { IfErr result (λ fault. Appends (K.written sink.old) (K.written sink.new) (take fault.sent bytes.now)) }
    ensures short { IfErr result (λ fault. fault.sent < length bytes.now) }
    ensures fault { OnErr result (Rose (K.faults sink.old) (K.faults sink.new)) }
    ensures quiet { OnOk result (K.faults sink.new ≡ K.faults sink.old) }
    ensures monotone { K.faults sink.old ≤ K.faults sink.new }
{
    let mut sent = 0;
    while sent < bytes.len() {
        match sink.write(&bytes[sent..]) {
            Ok(n) => sent += n,
            Err(Failed) => return Err(WroteFault { sent }),
        }
    }
    Ok(())
}
