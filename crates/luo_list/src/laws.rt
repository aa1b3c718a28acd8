// Laws on the words of this crate. The bodies are empty: what counts are the clauses.
ghost use Rattle.luo_list.specs.Laws.{WalksAreStretches, WalksGoInOrder};

/// What a cursor answers to its end, one after the other, is a stretch of the ordered listing: from its
/// first place to its end.
pub fn walks_are_stretches()
    ensures { WalksAreStretches }
{}

/// A cursor answers the structure of each place from its first one to before its end, once and in order.
pub fn walks_go_in_order()
    ensures { WalksGoInOrder }
{}
