//! What the lines of a run show of its record. Each law is a function without a body; its contract is the law.
ghost use Rattle.draw.specs.Chains.{ChainIsTheHistory};
ghost use Rattle.draw.specs.Changes.{LinesSayTheHistory, StoreIsTheHistorys};
ghost use Rattle.draw.specs.InLine.{WhoEntersIsFirst, WhoIsInsideIsDrawnFirst, WhoIsInsideIsFirst};
ghost use Rattle.draw.specs.Insides.{OneIsInside};

use picture::stages_are_the_records;

/// If lines state the marks of a record, the k-th knot is the k-th command of the history.
pub fn chain_is_the_history()
    ensures { ChainIsTheHistory }
{}

/// The line of each mark of a run states what its command changes in the one-thread store after the earlier commands of the
/// history. The store that follows the marks is the store after the history.
pub fn changes_are_the_historys()
    ensures lines { LinesSayTheHistory }
    ensures store { StoreIsTheHistorys }
{}

/// If lines state the marks of a record, at most one process is inside by the stages that they show. So among the bars that
/// are drawn from these stages no two `inside` are in one column.
pub fn one_is_inside()
    ensures { OneIsInside }
{
    stages_are_the_records();
}

/// If lines state the marks of a record, a process that enters is first in the line of the tickets that they show: each
/// process before it has given up or has failed, and waits no more. This holds as long as the process is inside, and so it
/// is drawn. The bar `behind 0,2` is therefore a promise: its process does not enter while one of these two processes still
/// waits before it.
pub fn who_enters_is_first_in_line()
    ensures entering { WhoEntersIsFirst }
    ensures inside { WhoIsInsideIsFirst }
    ensures drawn { WhoIsInsideIsDrawnFirst }
{
    stages_are_the_records();
}
