// The calls of a trading day. Each is judged as its record, with place 0.
ghost use Rattle.std.specs.Prelude.{◌≡◌};
ghost use Rattle.day.specs.Told.{Steps, told_done, told_number, trading_day};
ghost use Rattle.venue.specs.Calls.{Call.ask_price, Call.cancel, Call.enter, Call.move_clock, Call.offer, Call.post, Call.pull};
ghost use Rattle.venue.specs.Model.{leg_asked as leg_of_letter, pair_of};

use super::forms::Trading;
use edits::changes::{add_quote, add_request, cancel_request, move_clock, pull_quote};
use judges::verdicts::{
    judge_cancel, judge_entry, judge_offering, judge_posting, judge_pull, judge_question,
    judge_time,
};
use prices::rows::{Leg, Pair};
use prices::sources::Source;
use records::causes::Refusal;
use records::parts::Price;
use venue::rows::{Entry, Offering, Posting, PriceQuestion};

/// The pair of a posting that has both prices.
fn pair_posted(posting: &Posting) -> Option<Pair>
    ensures { result ≡ pair_of posting.now.bid posting.now.offer }
{
    posting
        .bid
        .zip(posting.offer)
        .map(|(bid, offer)| Pair { bid, offer })
}

// The letter was judged before: a `TryFrom` would have to refuse what cannot come.
/// The leg that a letter asks for.
fn leg_asked(letter: char) -> Leg
    ensures { result ≡ leg_of_letter letter }
{
    match letter {
        'S' => Leg::Selling,
        _ => Leg::Buying,
    }
}

// Each call names its own judge and its own change: a function over both would hide which belongs to which.
impl<S: Source> Trading<S> {
    /// Enters a request, and gives its number.
    pub fn enter(&mut self, entry: Entry) -> Result<u16, Refusal>
        ensures { Steps (trading_day S.rows S.screen self.old) (enter entry) (trading_day S.rows S.screen self.new) (told_number result) }
    {
        judge_entry(&self.market.tables, &entry)?;
        let number = self.market.tables.requests.len() + 1;
        add_request(&mut self.market.tables, &entry);
        Ok(number as u16)
    }

    /// Enters a quote, and gives its number. One that names an old quote ends it.
    pub fn quote(&mut self, offering: Offering) -> Result<u16, Refusal>
        ensures { Steps (trading_day S.rows S.screen self.old) (offer offering) (trading_day S.rows S.screen self.new) (told_number result) }
    {
        judge_offering(&self.market.tables, &offering)?;
        let number = self.market.tables.quotes.len() + 1;
        add_quote(&mut self.market.tables, &offering);
        Ok(number as u16)
    }

    /// Ends a quote of the caller's.
    pub fn pull(&mut self, user: u8, quote: u16) -> Result<(), Refusal>
        ensures { Steps (trading_day S.rows S.screen self.old) (pull user quote) (trading_day S.rows S.screen self.new) (told_done result) }
    {
        judge_pull(&self.market.tables, user, quote)?;
        pull_quote(&mut self.market.tables, quote);
        Ok(())
    }

    /// Ends a request of the caller's, and its quotes.
    pub fn cancel(&mut self, user: u8, request: u16) -> Result<(), Refusal>
        ensures { Steps (trading_day S.rows S.screen self.old) (cancel user request) (trading_day S.rows S.screen self.new) (told_done result) }
    {
        judge_cancel(&self.market.tables, user, request)?;
        cancel_request(&mut self.market.tables, request);
        Ok(())
    }

    /// Moves the clock, and ends what has expired then.
    pub fn move_clock(&mut self, time: u32) -> Result<(), Refusal>
        ensures { Steps (trading_day S.rows S.screen self.old) (move_clock time) (trading_day S.rows S.screen self.new) (told_done result) }
    {
        judge_time(&self.market.tables, time)?;
        move_clock(&mut self.market.tables, time);
        Ok(())
    }

    /// Posts the bid and the offer of a symbol at the clock, or that they are gone.
    pub fn post(&mut self, posting: Posting) -> Result<(), Refusal>
        ensures { Steps (trading_day S.rows S.screen self.old) (post posting) (trading_day S.rows S.screen self.new) (told_done result) }
    {
        judge_posting(&self.market.tables, &posting)?;
        // As in the day: a name that is no symbol's was refused before.
        let place = self.market.tables.place_of(&posting.name).unwrap_or(0);
        let clock = self.market.tables.clock;
        self.market.source.post(place, pair_posted(&posting), clock)
    }

    /// What a price of a symbol comes to now.
    pub fn ask_price(&self, question: PriceQuestion) -> Result<u32, Refusal>
        ensures { Steps (trading_day S.rows S.screen self.now) (ask_price question) (trading_day S.rows S.screen self.now) (told_number result) }
    {
        judge_question(&self.market.tables, &question)?;
        // As in the day: a name that is no symbol's was refused before.
        let place = self.market.tables.place_of(&question.name).unwrap_or(0);
        let price = Price {
            letter: question.letter,
            number: 0,
        };
        self.market.price(place, leg_asked(question.leg), price)
    }
}
