// What a leg or a limit comes to.
ghost use Rattle.std.specs.Prelude.{◌≡◌};
ghost use Rattle.prices.specs.Prices.{as_price, mid as mid_of, price_of, tick_at};
ghost use Rattle.prices.specs.Rounding.{Amounts, Rounds};
ghost use Rattle.prices.specs.Rows.{read_answer};

use super::rows::{Leg, Ticks};
use super::sources::Source;
use records::causes::{Cause, Refusal};
use records::parts::Price;

/// The highest price.
const MOST_PRICE: u64 = 999_999_999;

/// A number as a price, if it is one.
fn as_a_price(place: usize, number: u64) -> Result<u32, Refusal>
    ensures { result ≡ as_price place number }
{
    if (1..=MOST_PRICE).contains(&number) {
        Ok(number as u32)
    } else {
        Err(Cause::OutOfPrice.at(place))
    }
}

impl Ticks {
    /// The tick at a price, which is given twofold.
    pub fn at(self, _twice: u64) -> u32
        ensures { result ≡ tick_at self _twice }
    {
        self.tick
    }

    /// The mid of a leg, rounded to the tick.
    #[tactic(auto, using(crate::proofs::Mids::ceil))]
    fn mid(self, leg: Leg, bid: u32, offer: u32) -> u64
        ensures { result ≡ mid_of leg self bid offer }
    {
        let sum = u64::from(bid) + u64::from(offer);
        let tick = u64::from(self.at(sum));
        if tick == 0 {
            return 0;
        }
        match leg {
            Leg::Selling => sum.div_ceil(2 * tick) * tick,
            Leg::Buying => sum / (2 * tick) * tick,
        }
    }
}

// Source, place and time stay three parameters: a caller asks for any place of any source at any time.
/// What a leg, or a limit that meets a leg, comes to at a time, at the place of its symbol. The mid is rounded up for a
/// selling leg and down for a buying one.
#[tactic(auto, using(crate::proofs::Mids::rounds, crate::proofs::Mids::amounts))]
pub fn price_at<S: Source>(
    source: &S,
    place: usize,
    time: u32,
    ticks: Ticks,
    leg: Leg,
    price: Price,
) -> Result<u32, Refusal>
    ensures value { result ≡ price_of (read_answer (S.rows source.now) (S.screen source.now) place time) ticks leg place price }
    ensures rounds { Rounds }
    ensures amounts { Amounts }
{
    let number = match price.letter {
        'L' => u64::from(price.number),
        'B' => u64::from(source.read(place, time)?.0),
        'O' => u64::from(source.read(place, time)?.1),
        'M' => {
            let (bid, offer, _) = source.read(place, time)?;
            ticks.mid(leg, bid, offer)
        }
        _ => return Err(Cause::WrongLetter.into()),
    };
    as_a_price(place, number)
}
