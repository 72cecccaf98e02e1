// Which calls of an object in memory are to fail.
ghost use Rattle.std.specs.Prelude.{◌≡◌, ◌≤◌, OnOk, OnErr, is_err};
ghost use Rattle.sym_io.specs.Faults.{Rose};
ghost use Rattle.memory_ends.specs.Plan.{call_fails, failures, next_call, plan_of};

use sym_io::Failed;

/// The calls that are to fail, by their numbers from 1, and how many calls were made.
#[derive(Drop)]
pub(crate) struct FaultPlan {
    failing: Vec<u64>,
    calls: u64,
}

impl FaultPlan {
    pub(crate) fn new(failing: Vec<u64>) -> Self
        ensures { result ≡ plan_of failing }
    {
        FaultPlan { failing, calls: 0 }
    }

    /// Counts a call, and fails where it is listed.
    pub(crate) fn begin_call(&mut self) -> Result<(), Failed>
        ensures planned { is_err result ≡ call_fails self.old }
        ensures counted { self.new ≡ next_call self.old }
        ensures ok { OnOk result (failures self.new ≡ failures self.old) }
        ensures later { failures self.old ≤ failures self.new }
        ensures failed { OnErr result (Rose (failures self.old) (failures self.new)) }
    {
        if self.calls == u64::MAX {
            return Ok(());
        }
        self.calls += 1;
        let number = self.calls;
        if self.failing.contains(&number) {
            Err(Failed)
        } else {
            Ok(())
        }
    }
}
