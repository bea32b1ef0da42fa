//! What the definition of the annotated listing says, in other words.

ghost use Rattle.annotate.specs.Laws.{AddressesHaveOneCell, ListingAddsUp, SharesAddUp, WordsAreReached};

/// The cells of a symbol have its share together, and so the whole listing has the grains of all
/// symbols: none is lost to rounding at a cell's end.
pub fn cells_add_up()
    ensures symbol { SharesAddUp }
    ensures listing { ListingAddsUp }
{}

/// Each address of a symbol lies in one cell, that of its own word: none is left out, and none comes twice.
pub fn addresses_have_one_cell()
    ensures one { AddressesHaveOneCell }
    ensures there { WordsAreReached }
{}
