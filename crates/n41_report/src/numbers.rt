// The numbers of the commands of a script.
ghost use Rattle.std.specs.Prelude.{◌≡◌, ℕ, ◌+◌, ◌==◌, ◌<◌, ◌^◌, if◌then◌else◌, IfOk, OnOk};
ghost use Rattle.n41_report.specs.Found.{count};

use n41_types::NoMemory;
use std::alloc::Global;
use std::collections::HashMap;

/// How many commands of each caller there were.
#[derive(Drop)]
pub(crate) struct Numbers {
    counts: HashMap<u32, u64>,
}

impl Numbers {
    pub(crate) fn new(alloc: Global) -> Numbers
        ensures { (c : ℕ) → count result c ≡ 0 }
    {
        Numbers {
            counts: HashMap::new(alloc),
        }
    }

    /// The number of the next command of a caller, which is counted.
    pub(crate) fn next(&mut self, caller: u32) -> Result<u64, NoMemory>
        requires { count self.old caller + 1 < 2 ^ 64 }
        ensures number { IfOk result (λ n. n ≡ count self.old caller + 1) }
        ensures counted { OnOk result ((c : ℕ) → count self.new c ≡ (if caller == c then count self.old c + 1 else count self.old c)) }
    {
        let number = self.counts.get(&caller).copied().unwrap_or(0) + 1;
        self.counts.insert(caller, number)?;
        Ok(number)
    }
}
