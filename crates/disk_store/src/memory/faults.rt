//! Which calls of a disk in memory fail, and how many have failed.
ghost use Rattle.std.specs.Prelude.{◌≡◌, ◌↔◌, ℕ, ◌≤◌, ◌<◌, ◌+◌, IsTrue, if◌then◌else◌};
ghost use Rattle.std.specs.Bool.{OnFalse};
ghost use Rattle.disk_model.specs.Disk.{Rises, most_failures};

/// Which of the next calls are to fail. The next call is number 1.
#[derive(Clone, Copy)]
pub struct Plan {
    /// The one call that fails.
    pub fail_at: Option<u64>,
    /// The first of those that all fail.
    pub stop_at: Option<u64>,
}

/// The failures and the calls so far, both held at the greatest number, and which of the next calls
/// fail.
#[derive(Clone, Copy)]
pub struct Faults {
    pub failures: u64,
    pub calls: u64,
    pub plan: Plan,
}

impl Plan {
    ghost use Rattle.disk_store.specs.Faults.{fails, next_plan, no_plan};

    /// No call is to fail.
    pub fn new() -> Self
        ensures { result ≡ no_plan }
    {
        Plan {
            fail_at: None,
            stop_at: None,
        }
    }

    /// Whether the next call is to fail.
    pub fn fails_next(&self) -> bool
        ensures { result ≡ fails self.now 1 }
    {
        self.fail_at == Some(1) || self.stop_at.is_some_and(|first| first <= 1)
    }

    /// The plan after the next call.
    pub fn next_plan(&self) -> Self
        ensures value { result ≡ next_plan self.now }
        ensures moves_on { (k : ℕ) → 1 ≤ k → fails result k ≡ fails self.now (k + 1) }
    {
        Plan {
            fail_at: match self.fail_at {
                Some(n) if n > 1 => Some(n - 1),
                _ => None,
            },
            stop_at: self.stop_at.map(|first| first.saturating_sub(1).max(1)),
        }
    }
}

impl Faults {
    ghost use Rattle.disk_store.specs.Faults.{no_plan, next_plan, next_count, is_struck};

    /// No call was made, and none is to fail.
    pub fn new() -> Self
        ensures failures { result.failures ≡ 0 }
        ensures calls { result.calls ≡ 0 }
        ensures plan { result.plan ≡ no_plan }
    {
        Faults {
            failures: 0,
            calls: 0,
            plan: Plan::new(),
        }
    }

    /// Counts a call, and answers whether it fails. A failure is counted, too.
    pub fn strike(&mut self) -> bool
        ensures struck { result ≡ is_struck self.old }
        ensures failures { self.new.failures
            ≡ (if result then next_count self.old.failures else self.old.failures) }
        ensures calls { self.new.calls ≡ next_count self.old.calls }
        ensures plan { self.new.plan ≡ next_plan self.old.plan }
        ensures fits { self.new.failures ≤ most_failures }
        ensures rises { IsTrue result ↔ Rises self.old.failures self.new.failures }
        ensures room { OnFalse result (self.new.failures < most_failures) }
    {
        let is_struck = self.plan.fails_next() || self.failures == u64::MAX;
        self.calls = self.calls.saturating_add(1);
        self.plan = self.plan.next_plan();
        if is_struck {
            self.failures = self.failures.saturating_add(1);
        }
        is_struck
    }
}
