// A source over bytes in memory.
ghost use Rattle.std.specs.Prelude.{◌≡◌, ◌≤◌, min, length, take, vec_len};

use crate::plan::FaultPlan;
use sym_io::{Failed, Source};

/// Copies as many bytes as fit.
fn copy_front(from: &[u8], to: &mut [u8]) -> usize
    ensures count { result ≡ min (length to.old) (length from.now) }
    ensures copied { take result to.new ≡ take result from.now }
{
    let count = to.len().min(from.len());
    to[..count].copy_from_slice(&from[..count]);
    count
}

/// A source of the bytes of a `Vec`.
#[derive(Drop)]
pub struct MemSource {
    bytes: Vec<u8>,
    position: usize,
    /// How many bytes the last read has handed out.
    last: usize,
    plan: FaultPlan,
    ghost in_range: { position ≤ vec_len bytes },
    ghost read: { last ≤ position },
}

impl MemSource {
    ghost use Rattle.memory_ends.specs.Memory.{bytes_left, source_plan};
    ghost use Rattle.memory_ends.specs.Plan.{plan_of};

    /// A source of these bytes, whose calls with the numbers of `failing`, counted from 1, fail.
    pub fn new(bytes: Vec<u8>, failing: Vec<u64>) -> Self
        ensures left { bytes_left result ≡ bytes.items }
        ensures plan { source_plan result ≡ plan_of failing }
    {
        MemSource {
            bytes,
            position: 0,
            last: 0,
            plan: FaultPlan::new(failing),
        }
    }
}

impl Source for MemSource {
    ghost use Rattle.std.specs.Prelude.{Some, OnErr, is_err};
    ghost use Rattle.std.specs.Io.{ReadsAtMost};
    ghost use Rattle.std.specs.Io.KnownBytes.{ReadConsumes};
    ghost use Rattle.sym_io.specs.Faults.{Rose};
    ghost use Rattle.memory_ends.specs.Memory.{bytes_left, last_piece, source_plan, source_faults};
    ghost use Rattle.sym_io.specs.Pieces.{handed_out};
    ghost use Rattle.memory_ends.specs.Plan.{call_fails, next_call};

    ghost left = { λ source. Some (bytes_left source) };

    ghost handed = { λ source. Some (last_piece source) };

    ghost faults = { source_faults };

    fn read(&mut self, buf: &mut [u8]) -> Result<usize, Failed>
        ensures planned { is_err result ≡ call_fails (source_plan self.old) }
        ensures counted { source_plan self.new ≡ next_call (source_plan self.old) }
        ensures bound { ReadsAtMost result buf.new }
        ensures bytes { ReadConsumes (Some (bytes_left self.old)) (Some (bytes_left self.new)) result buf.new }
        ensures piece { last_piece self.new ≡ handed_out result buf.new }
        ensures later { source_faults self.old ≤ source_faults self.new }
        ensures failed { OnErr result (Rose (source_faults self.old) (source_faults self.new)) }
    {
        self.last = 0;
        match self.plan.begin_call() {
            Ok(()) => {}
            Err(failed) => return Err(failed),
        }
        let count = copy_front(&self.bytes[self.position..], buf);
        self.position += count;
        self.last = count;
        Ok(count)
    }
}
