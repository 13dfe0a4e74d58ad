ghost use Rattle.std.specs.Prelude.{◌≡◌, ◌+◌, ◌<◌, ◌≤◌, ℕ};

/// Keeps a count of steps, or nothing of it: what it keeps stands for one or more counts.
pub trait StepLedger {
    ghost counts: { Self → ℕ → Type 0 };

    /// For no steps.
    fn none() -> Self
        ensures { counts result 0 };

    /// For one step more.
    fn more(&mut self)
        ensures { (n : ℕ) → counts self.old n → counts self.new (n + 1) };
}

/// Keeps nothing: it stands for every count.
#[derive(Clone, Copy, Debug)]
pub struct Uncounted;

impl StepLedger for Uncounted {
    ghost counts = { λ kept n. Unit {0} };

    fn none() -> Uncounted {
        Uncounted
    }

    fn more(&mut self) {}
}

/// Keeps the lesser of the count and the greatest `u64`.
#[derive(Clone, Copy, Debug)]
pub struct Counted(u64);

impl StepLedger for Counted {
    ghost use Rattle.std.specs.Prelude.{min, ◌-◌, ◌^◌};

    ghost counts = { λ kept n. kept.0 ≡ min n (2 ^ 64 - 1) };

    fn none() -> Counted {
        Counted(0)
    }

    fn more(&mut self) {
        self.0 = self.0.saturating_add(1);
    }
}

/// How many steps were taken: the number of calls of [`Steps::tick`].
#[derive(Drop)]
pub struct Steps<L> {
    ledger: L,
}

impl<L: StepLedger> Steps<L> {
    ghost use Rattle.hm_base.specs.StepCounts.{ledger_of};

    /// No steps.
    pub fn new() -> Steps<L>
        ensures { L.counts (ledger_of result) 0 }
    {
        Steps { ledger: L::none() }
    }

    /// One step more.
    pub fn tick(&mut self)
        ensures { (n : ℕ) → L.counts (ledger_of self.old) n → L.counts (ledger_of self.new) (n + 1) }
    {
        self.ledger.more();
    }
}

impl Steps<Counted> {
    ghost use Rattle.std.specs.Prelude.{min, ◌-◌, ◌^◌};
    ghost use Rattle.hm_base.specs.StepCounts.{ledger_of};

    /// The count, or the greatest `u64` where the count is above it.
    pub fn shown(&self) -> u64
        ensures { (n : ℕ) → ⟦<Counted as StepLedger>⟧.counts (ledger_of self.now) n → result ≡ min n (2 ^ 64 - 1) }
    {
        self.ledger.0
    }
}
