ghost use Rattle.std.specs.Prelude.{ℕ, List, []};
ghost use Rattle.dk_config.specs.Configuration.{Configuration};
ghost use Rattle.dk_trace.specs.declared.ThreadId.{ThreadId};
ghost use Rattle.dk_trace.specs.Slack.{unclaimed};
ghost use Rattle.dk_slack.specs.Slack.{at_start};
ghost use Rattle.dk_slack.specs.Wishes.{dropped};
ghost use Rattle.dk_slack.specs.Recount.{IsRecount};
ghost use Rattle.dk_slack.specs.Laws.{SlackSpendsWish, OthersKeepWishes, TickCountsUnclaimed, AskingAddsWish, ShutEndsWishes, DropsWishes, WishesStay, WishesBegin, UnclaimedStay, UnclaimedBegin, TellsSource, TellsFronts, TellsAmounts, TellsEntering, TellsNothing};

/// The table at the start is the recount of no ticks, whatever the spares and the nodes are.
pub fn start_is_the_recount()
    ensures { (node_of : ThreadId → ℕ) (spares : List ℕ) (c : Configuration)
        → IsRecount node_of spares c 0 [] (at_start c spares) }
{}

/// A tick of slack keeps the wishes of each level the recount by `spend`, and any other tick by no call. The
/// unclaimed ticks stay it by `count` with the level that claimed the tick.
pub fn tick_keeps_the_recount()
    ensures slack { SlackSpendsWish }
    ensures others { OthersKeepWishes }
    ensures unclaimed { TickCountsUnclaimed }
{}

/// A call for slack of the thread that had the tick and isn't closed keeps the wishes of each level the
/// recount by `ask`.
pub fn call_keeps_the_recount()
    ensures { AskingAddsWish }
{}

/// An event that shuts threads, by a wait or a stop, keeps the wishes of each level the recount by
/// `drop_request` of each of them, and an event that shuts nobody by no call.
pub fn stops_keep_the_recount()
    ensures left { ShutEndsWishes }
    ensures dropped { DropsWishes }
{}

/// At the next tick the wishes and the unclaimed ticks of a level stay as long as its window goes on. At the
/// start of a window there are none.
pub fn opening_keeps_the_recount()
    ensures wishes_stay { WishesStay }
    ensures wishes_begin { WishesBegin }
    ensures unclaimed_stay { UnclaimedStay }
    ensures unclaimed_begin { UnclaimedBegin }
{}

/// A table that is the recount of a past, with the spares of its configuration, tells the source of
/// slack that the past gives.
pub fn source_is_the_pasts()
    ensures { TellsSource }
{}

/// The front of a level, in a table that is the recount of a past, is the node of a thread that has
/// asked for longest; there is none only where no thread of the level asks.
pub fn fronts_are_the_pasts()
    ensures { TellsFronts }
{}

/// A table that is the recount of a past, in which no two threads that ask share a node, has of each
/// thread that asks what the past gives, and nothing of a node for which no thread asks.
pub fn wishes_are_the_pasts()
    ensures amount { TellsAmounts }
    ensures switch { TellsEntering }
    ensures nothing { TellsNothing }
{}
