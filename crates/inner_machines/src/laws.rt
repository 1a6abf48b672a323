ghost use Rattle.inner_machines.specs.Laws.{CallsSharePages, LeastIsFree, OthersStay, OuterStays, OwnCallsDecide, WorkIsPaid};

use page_memory::{ranges_are_allowed, stores_keep_pages};

/// A call changes the inner machine of its own number alone. It does nothing.
pub fn others_stay()
    ensures { OthersStay }
{}

/// Of the machine that calls, a call changes register 7, by `peek` and `invoke` the bytes of their ranges, by `invoke`
/// register 8 and the gas, and how many pages its memory may have. All else of it is as before. It does nothing.
pub fn outer_stays()
    ensures { OuterStays }
{
    stores_keep_pages();
    ranges_are_allowed();
}

/// The number that a new machine takes is the least that no machine has. It does nothing.
pub fn least_is_free()
    ensures { LeastIsFree }
{}

/// Each inner machine is what its own calls alone made of it, since the one that made it, but for those without room. It
/// does nothing.
pub fn own_calls_decide()
    ensures { OwnCallsDecide }
{}

/// Calls keep that all machines of a run have at most 131,072 pages together, and that the machine that calls may have
/// those that the inner ones leave. It does nothing.
pub fn calls_share_pages()
    ensures { CallsSharePages }
{
    stores_keep_pages();
}

/// An inner machine spends of the gas that it is given alone. It does nothing.
pub fn work_is_paid()
    ensures { WorkIsPaid }
{
    stores_keep_pages();
}
