// What holds of every board of lamps, and of some small ones. Each function does nothing: its contract is a theorem.
#![tactic(auto)]

ghost use Rattle.lamps.specs.Promise.{AllOn, OneOrOther, AnyOrder, AsMany, EvenQuiet, SideBySide};
ghost use Rattle.lamps.specs.Boards.{Boards};

// If all lamps are lit, some presses put all out.
pub fn all_on_holds()
    ensures { AllOn }
{}

// There are presses that put all out, or a quiet set of which an odd number is lit, and never both.
pub fn one_or_other_holds()
    ensures { OneOrOther }
{}

// Presses in another order do the same, and one pressed twice does nothing.
pub fn any_order_holds()
    ensures { AnyOrder }
{}

// If there is a way there are as many as there are quiet sets, and these are a power of two.
pub fn as_many_holds()
    ensures { AsMany }
{}

// Every quiet set has an even number of lamps.
pub fn even_quiet_holds()
    ensures { EvenQuiet }
{}

// Two boards side by side, with no wire between them, are put out each by itself.
pub fn side_by_side_holds()
    ensures { SideBySide }
{}

// Small boards have the answers that are listed.
pub fn boards_hold()
    ensures { Boards }
{}
