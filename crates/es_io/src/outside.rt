// What gives bytes and what takes them, and how each may fail.
ghost use Rattle.std.specs.Prelude.{◌≡◌, ℕ, ◌<◌, ◌≤◌, List, [], Option, length, take, IfOk, OnOk, OnErr, IfSome};
ghost use Rattle.es_io.specs.Bytes.{Appends, Loses};
ghost use Rattle.es_io.specs.Count.{Rose};

/// A read, a write or the start of a job failed: that call took or gave no byte, or started nothing.
#[derive(Clone, Copy, PartialEq, Eq)]
pub struct Failed;

/// Gives bytes, in order and in pieces.
pub trait Source {
    /// The bytes still to come, where they are known.
    ghost left: { Self → Option (List ℕ) };

    /// How often the source has failed: a count that never falls, and stands still at 2^64 - 1.
    ghost faults: { Self → ℕ };

    /// Puts the next bytes at the front of `buf` and says how many they are, at most `buf.len()`. 0 for a nonempty
    /// `buf` is the end. It is `Failed` exactly where the source has failed, and has then given nothing; a later call
    /// may go on.
    fn read(&mut self, buf: &mut [u8]) -> Result<usize, Failed>
        ensures within { IfOk result (λ n. n ≤ length buf.new) }

        // Where the bytes to come are known, it gives the next n, and then these are gone.
        ensures there { IfOk result (λ n. IfSome (left self.old) (λ bytes. n ≤ length bytes)) }
        ensures next { IfOk result (λ n. IfSome (left self.old) (λ bytes. take n buf.new ≡ take n bytes)) }
        ensures taken { IfOk result (λ n. Loses (left self.old) (left self.new) n) }
        ensures end { IfOk result (λ n. n ≡ 0 → 0 < length buf.new → IfSome (left self.old) (λ bytes. bytes ≡ [])) }
        ensures kept { OnErr result (left self.new ≡ left self.old) }

        ensures monotone { faults self.old ≤ faults self.new }
        ensures quiet { OnOk result (faults self.new ≡ faults self.old) }
        ensures cause { OnErr result (Rose (faults self.old) (faults self.new)) };
}

/// Takes bytes, in order and in pieces.
pub trait Sink {
    /// The bytes taken so far, where they are known.
    ghost written: { Self → Option (List ℕ) };

    /// How often the sink has failed: a count that never falls, and stands still at 2^64 - 1.
    ghost faults: { Self → ℕ };

    /// Takes some first bytes of `piece` and says how many they are: of a nonempty piece at least 1. It is `Failed`
    /// exactly where the sink has failed, and has then taken nothing; a later call may go on.
    fn write(&mut self, piece: &[u8]) -> Result<usize, Failed>
        ensures within { IfOk result (λ n. n ≤ length piece.now) }
        ensures some { IfOk result (λ n. 0 < length piece.now → 0 < n) }
        ensures taken { IfOk result (λ n. Appends (written self.old) (written self.new) (take n piece.now)) }
        ensures kept { OnErr result (written self.new ≡ written self.old) }

        ensures monotone { faults self.old ≤ faults self.new }
        ensures quiet { OnOk result (faults self.new ≡ faults self.old) }
        ensures cause { OnErr result (Rose (faults self.old) (faults self.new)) };
}
