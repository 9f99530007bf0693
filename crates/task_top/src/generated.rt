ghost use Rattle.std.specs.Prelude.{◌<◌, ◌≡◌};
ghost use Rattle.es_io.specs.Count.{Rose};
ghost use Rattle.task_top.specs.Generated.{WritesInput};

use es_io::{Sink, write_all_of};
use script_lang::generate;
use std::alloc::Global;
use top_parts::Status;

/// Writes the input that a number makes, for `sim` and three nodes or more.
///
/// It is made whole before a byte of it is written.
pub fn gen_top<K: Sink>(alloc: Global, number: u64, out: &mut K) -> Status
    // Where the sink tells its bytes: they grew by that input, or by a first part of it where the sink failed, or not at all where
    // memory ran out. It ends in no other way.
    ensures output { WritesInput number (K.written out.old) (K.written out.new) result }
    // Where the sink has failed, that is told.
    ensures told { K.faults out.old < K.faults out.new → result ≡ Status.WriteFault }
    // And it is told only where the sink has failed.
    ensures cause { result ≡ Status.WriteFault → Rose (K.faults out.old) (K.faults out.new) }
{
    let input = match generate(alloc, number) {
        Ok(input) => input,
        Err(_) => return Status::Memory,
    };
    match write_all_of(out, input.as_slice()) {
        Ok(()) => Status::Done,
        Err(_) => Status::WriteFault,
    }
}
