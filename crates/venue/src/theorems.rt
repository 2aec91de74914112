// Theorems about the model of a day, each on the contract of a function. What the functions return says nothing.
ghost use Rattle.venue.specs.Amounts.{Amounts};
ghost use Rattle.venue.specs.Debts.{Debts, Sample};
ghost use Rattle.venue.specs.Laws.{FillsAddUp, FillsByTurns, Granted, RefusedLeaves, SortedQuotes, ToldCauses};
ghost use Rattle.venue.specs.Numbers.{NumbersCountUp, TradesHaveRoom};
ghost use Rattle.venue.specs.Quantities.{EndedRests, EntriesStay, OffersStay, QuantitiesAddUp, Sample as QuantitiesSample, TradesAreGood};
ghost use Rattle.venue.specs.TwoDays.{HeldBackStaysHidden, Sample as TwoDaysSample, StrangersToldNothing};

/// A refused call leaves the day; a refusal has its cause and none has a smaller number; without a cause there is none.
pub fn refusals_are_told() -> u8
    ensures leaves { RefusedLeaves }
    ensures told { ToldCauses }
    ensures granted { Granted }
{
    0
}

/// Quotes stand in the order of the four keys, with none lost and none added.
pub fn quotes_are_sorted() -> u8
    ensures { SortedQuotes }
{
    0
}

/// Fills are made turn by turn, and add up.
pub fn fills_add_up() -> u8
    ensures turns { FillsByTurns }
    ensures totals { FillsAddUp }
{
    0
}

/// Requests, quotes and trades are numbered from 1 without gaps, and an acceptance always finds room for its trades.
pub fn numbers_count_up() -> u8
    ensures gapless { NumbersCountUp }
    ensures room { TradesHaveRoom }
{
    0
}

/// What is open and what was traded make up what was entered, at every point of every run; what was entered stays; what has
/// ended rests; every trade was a good one when it was made; and a sample of it.
pub fn quantities_add_up() -> u8
    ensures sums { QuantitiesAddUp }
    ensures entries { EntriesStay }
    ensures offers { OffersStay }
    ensures rests { EndedRests }
    ensures trades { TradesAreGood }
    ensures sample { QuantitiesSample }
{
    0
}

/// Over several days, the unfiled trades are exactly those on the debts that are out, each on one; and a sample of it.
pub fn debts_balance() -> u8
    ensures law { Debts }
    ensures sample { Sample }
{
    0
}

/// The premises of the law of two days can be met.
pub fn two_days_differ() -> u8
    ensures { TwoDaysSample }
{
    0
}

/// What an entry holds back stays hidden: days that differ only in that, and on which none of it trades, answer everybody else
/// alike; who names what is not the caller's is answered as with a number never given; and a sample of two such days.
pub fn held_back_stays_hidden() -> u8
    ensures law { HeldBackStaysHidden }
    ensures strangers { StrangersToldNothing }
    ensures sample { TwoDaysSample }
{
    0
}

/// The definitions give the amounts worked out by hand.
pub fn amounts_stand() -> u8
    ensures { Amounts }
{
    0
}
