// What the work on a leaf begins from.
ghost use Rattle.std.specs.Prelude.{IfOk};
ghost use Rattle.sound_searches.specs.Jobs.{IsJobAnswer};
ghost use Rattle.sound_searches.specs.Placing.{IsOpenPlace};

use crate::search::Search;
use branch_tree::{Job, copy_lists};
use lp_model::Region;
use std::alloc::AllocError;

impl Search {
    /// What the work on the open leaf with the id, which has this region, begins from.
    fn job_at(&self, id: u64, region: Region) -> Result<Option<Job>, AllocError>
        requires { IsOpenPlace self.now id region }
        ensures { IfOk result (λ job. IsJobAnswer self.now id job) }
    {
        let Some(kept) = self.tree.leaf(id) else {
            unreachable!()
        };
        match copy_lists(self.alloc, &kept.mult, &kept.basis) {
            Ok((mult, basis)) => Ok(Some(Job {
                id,
                region,
                mult,
                basis,
                target: self.target(),
            })),
            Err(error) => {
                drop(region);
                Err(error)
            }
        }
    }

    /// What the work on the open leaf with the id begins from, `None` where no open leaf has it. The target is the least
    /// value of the kept points, in least form.
    pub fn job(&self, id: u64) -> Result<Option<Job>, AllocError>
        ensures { IfOk result (λ job. IsJobAnswer self.now id job) }
    {
        match self.open_region(id) {
            Ok(Some(region)) => self.job_at(id, region),
            Ok(None) => Ok(None),
            Err(error) => Err(error),
        }
    }
}
