//! What is left of a budget while a walk is under way.

ghost use Rattle.std.specs.Prelude.{◌≡◌};
ghost use Rattle.pair_budget.specs.FoundSectors.{one_less};

use sight_names::Budget;
use std::marker::Model;

/// What is left of a budget: so many sequences, or all. One test of the number tells that more are left, but where all are.
#[derive(Drop)]
pub struct BudgetLeft {
    count: u64,
    is_full: bool,
}

impl Model for BudgetLeft {
    ghost use Rattle.std.specs.Prelude.{if◌then◌else◌};
    ghost use Rattle.sight_names.specs.declared.names.Budget.{Budget as BudgetOf};
    ghost use Rattle.sight_names.specs.declared.names.Budget.TheVariants.{Of, Full};

    ghost Value = { BudgetOf };

    ghost view = { λ b. if b.is_full then Full else Of b.count };
}

impl BudgetLeft {
    /// The whole budget.
    pub fn of(budget: Budget) -> BudgetLeft
        ensures { result ≡ budget }
    {
        match budget {
            Budget::Full => BudgetLeft {
                count: 0,
                is_full: true,
            },
            Budget::Of(count) => BudgetLeft {
                count,
                is_full: false,
            },
        }
    }

    /// What is left after one more sequence, None where that is one too many.
    #[inline(always)]
    pub fn with_one_less(&self) -> Option<BudgetLeft>
        ensures { result ≡ one_less self.now }
    {
        if self.count > 0 {
            return Some(BudgetLeft {
                count: self.count - 1,
                is_full: self.is_full,
            });
        }
        if self.is_full {
            Some(BudgetLeft {
                count: 0,
                is_full: true,
            })
        } else {
            None
        }
    }
}
