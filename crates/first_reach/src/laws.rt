//! Laws over the definitions alone.

ghost use Rattle.first_reach.specs.Laws.{CarriesFirsts, RepeatCarriesRoots, LeastIsFirst};

/// In mode `Once` a reply carries a file exactly where its root is the first that reaches it.
pub fn carries_firsts()
    ensures { CarriesFirsts }
{}

/// In mode `Repeat` a reply carries a file exactly where it is the root, or its root is the first that reaches it.
pub fn repeat_carries_roots()
    ensures { RepeatCarriesRoots }
{}

/// The least number at a file at which the roots that reach it posted their positions is the position of the first of them.
pub fn least_is_first()
    ensures { LeastIsFirst }
{}
