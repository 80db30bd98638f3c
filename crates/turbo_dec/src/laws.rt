//! Laws of maximum scores and of the interleaver's two orders.

ghost use Rattle.turbo_dec.specs.Laws.{GreatestScoresAreGreatest, OrdersUndoEachOther};

/// A law: `greatest_score` is the maximum score among information words with the given bit at the given index: some
/// such word has that score, and none has a greater one.
pub fn greatest_scores()
    ensures { GreatestScoresAreGreatest }
{}

/// A law: deinterleaving undoes interleaving, for each block size.
pub fn orders_undo_each_other()
    ensures { OrdersUndoEachOther }
{}
