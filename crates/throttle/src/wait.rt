ghost use Rattle.std.specs.Prelude.{◌≡◌, ◌≤◌};
ghost use Rattle.throttle.specs.Waits.{wait_of};

use crate::rate::Rate;

/// How many milliseconds a slice waits after a batch of so many documents, where it is one of so many slices and has
/// already spent so many milliseconds on the batch.
///
/// All slices together then write at most `rate` documents a second: the batch of a slice takes `slices` times as long
/// as if it were alone. That time is rounded down to whole milliseconds. Without a rate nothing waits. It takes no memory.
pub fn wait_ms(batch: u32, slices: u32, rate: Rate, spent: u64) -> u64
    requires batch { batch ≤ 10000 }
    requires slices { slices ≤ 32 }
    ensures { result ≡ wait_of batch slices rate spent }
{
    match rate {
        Rate::None => 0,
        Rate::PerSecond(documents) => {
            let time = 1000 * batch as u64 * slices as u64 / documents.count as u64;
            time.saturating_sub(spent)
        }
    }
}
