//! What holds of budgets. This function exists only for its contract.

ghost use Rattle.osc_fresh.specs.Budgeting.{BudgetHolds};

/// States how many numbers a budget gives: in k periods at most k times `most`, and periods begin at least 30 s apart.
pub fn budget_holds()
    ensures { BudgetHolds }
{}
