ghost use Rattle.masm_parse.specs.Laws.{TreesAreInForm, LocalsFit};
ghost use Rattle.masm_parse.specs.Order.{TreesAreInOrder, ProceduresAscend};
ghost use Rattle.masm_parse.specs.Refusals.{LeastRefusal, ParsesOnce};

/// The parser's answer is the tree that the tokens spell where no token is refused, and else the
/// refusal of the first place and, there, of the first cause; and no other tree is read.
pub fn least_refusal()
    ensures answers { LeastRefusal }
    ensures once { ParsesOnce }
{}

/// Each local that an instruction names is one of its procedure's.
pub fn locals_fit()
    ensures { LocalsFit }
{}

/// Each instruction of a tree has as many numbers as its name takes, each in its range, and no
/// procedure has more than 65,535 locals.
pub fn trees_are_in_form()
    ensures { TreesAreInForm }
{}

/// The constants of a tree stand in it in the order of its source, and so do its procedures, with
/// `begin` behind them, and all their statements: each place is an earlier line, or an earlier
/// column of the same line, than those that come behind it. So of two procedures of one name the
/// first in the tree is the first in the source.
pub fn trees_are_in_order()
    ensures trees { TreesAreInOrder }
    ensures procedures { ProceduresAscend }
{}
