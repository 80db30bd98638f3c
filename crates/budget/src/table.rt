//! The table of the 128th roots of unity.

ghost use Rattle.budget.specs.Table.{IsNearlyMultiplicative};

/// A law: the product of two table entries is 16384 times the entry at the indices' sum, up to a deviation of magnitude
/// 22200.
pub fn table_is_nearly_multiplicative()
    ensures { IsNearlyMultiplicative }
{}
