//! The law of tickets, as the contract of a function that does nothing.
ghost use Rattle.std.specs.Prelude.{◌≡◌, ℕ, ◌+◌, Bool, List, All, count_by};
ghost use Rattle.std.specs.List.{sum_by};
ghost use Rattle.worker_pool.specs.Tickets.{Step, IsStepOf, after, pushed};

/// After every list of steps of any number of workers, the numbers that were pushed are those in the deques and those that were taken, each once.
pub fn tickets_are_kept()
    ensures { (n : ℕ) (steps : List Step) → All (IsStepOf n) steps → (test : ℕ → Bool)
        → count_by test (pushed steps) ≡ sum_by (λ l. count_by test l) (after n steps).deques + sum_by (λ l. count_by test l) (after n steps).taken }
{}
