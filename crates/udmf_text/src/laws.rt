//! Laws of the definitions, whatever the text.

ghost use Rattle.udmf_text.specs.Grammar.{TellsItems};

/// The parts that are told of a text are those of its items; and where there is a fault, it is at the first byte at which no
/// item can go on.
pub fn tells_items()
    ensures { TellsItems }
{}
