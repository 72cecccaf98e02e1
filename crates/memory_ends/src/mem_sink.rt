// A sink into memory.
ghost use Rattle.std.specs.Prelude.{◌≡◌, ◌≤◌, [], true, length, Some, Ok, IsErr, OnOk, OnErr};
ghost use Rattle.std.specs.Io.{WritesAtMost};
ghost use Rattle.std.specs.Io.KnownBytes.{WriteAppends};
ghost use Rattle.sym_io.specs.Faults.{Rose, RoseOnZero};
ghost use Rattle.memory_ends.specs.Memory.{bytes_written, sink_plan, sink_faults};
ghost use Rattle.memory_ends.specs.Plan.{call_fails, next_call, plan_of};

use crate::plan::FaultPlan;
use std::alloc::Global;
use sym_io::{Failed, Sink};

/// A sink that keeps the bytes in a `Vec`.
#[derive(Drop)]
pub struct MemSink {
    bytes: Vec<u8>,
    plan: FaultPlan,
    refused: u64,
}

impl MemSink {
    /// An empty sink, whose calls with the numbers of `failing`, counted from 1, fail. So does a call for whose bytes
    /// there is no memory.
    pub fn new(alloc: Global, failing: Vec<u64>) -> Self
        ensures written { bytes_written result ≡ [] }
        ensures plan { sink_plan result ≡ plan_of failing }
    {
        MemSink {
            bytes: Vec::new(alloc),
            plan: FaultPlan::new(failing),
            refused: 0,
        }
    }

    /// The bytes that were written.
    pub fn bytes(&self) -> &[u8]
        ensures { result.now ≡ bytes_written self.now }
    {
        &self.bytes
    }
}

impl Sink for MemSink {
    ghost written = { λ sink. Some (bytes_written sink) };

    ghost faults = { sink_faults };

    fn write(&mut self, bytes: &[u8]) -> Result<usize, Failed>
        ensures planned { call_fails (sink_plan self.old) ≡ true → IsErr result }
        ensures counted { sink_plan self.new ≡ next_call (sink_plan self.old) }
        ensures whole { OnOk result (result ≡ Ok (length bytes.now)) }
        ensures still { OnOk result (sink_faults self.new ≡ sink_faults self.old) }
        ensures bound { WritesAtMost result bytes.now }
        ensures bytes { WriteAppends (Some (bytes_written self.old)) (Some (bytes_written self.new)) result bytes.now }
        ensures later { sink_faults self.old ≤ sink_faults self.new }
        ensures failed { OnErr result (Rose (sink_faults self.old) (sink_faults self.new)) }
        ensures none { RoseOnZero (sink_faults self.old) (sink_faults self.new) result bytes.now }
    {
        match self.plan.begin_call() {
            Ok(()) => {}
            Err(failed) => return Err(failed),
        }
        match self.bytes.extend_from_slice(bytes) {
            Ok(()) => Ok(bytes.len()),
            Err(_) => {
                self.refused = self.refused.saturating_add(1);
                Err(Failed)
            }
        }
    }
}
