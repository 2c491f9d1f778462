//! Laws of the definitions in `specs/`, each the contract of a function that does nothing.

ghost use Rattle.fmp_tasklang.specs.Examples.{Examples};
ghost use Rattle.fmp_tasklang.specs.Laws.{ViewsOfParts, SpellsOneProgram, MoreTurnsChangeNothing, HandsOverNothing};
ghost use Rattle.fmp_tasklang.specs.Laws.{FollowsEachItem};

/// The view of a tree is made of the views of what its boxes and vectors hold.
pub fn views_are_made_of_parts()
    ensures { ViewsOfParts }
{}

/// A list of tokens spells at most one program.
pub fn tokens_spell_one_program()
    ensures { SpellsOneProgram }
{}

/// More turns change no stretch that is within its bound.
pub fn more_turns_change_nothing()
    ensures { MoreTurnsChangeNothing }
{}

/// A stretch that is over its bound hands over nothing.
pub fn stretches_hand_over_nothing()
    ensures { HandsOverNothing }
{}

/// A stretch follows one item after another until it stops or has no turn left.
pub fn each_item_is_followed()
    ensures { FollowsEachItem }
{}

/// The values and stretches of small bodies.
pub fn examples_hold()
    ensures { Examples }
{}
