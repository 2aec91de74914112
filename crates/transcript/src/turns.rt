// What each record of a file comes to: what it is answered, and the day as it is then.
ghost use Rattle.std.specs.Prelude.{◌≡◌, ℕ, ◌≤◌, length, IfOk, Some, ◌≢◌};
ghost use Rattle.records.specs.Causes.{refusal};
ghost use Rattle.records.specs.declared.causes.Cause.TheVariants.{OutOfPart};
ghost use Rattle.records.specs.declared.parts.Kind.TheVariants.{Closing, Opening};
ghost use Rattle.venue.specs.Calls.{Call.close};
ghost use Rattle.venue.specs.Model.{a_number};
ghost use Rattle.day.specs.Told.{closed_day, told_done, told_number, told_page, trading_day};
ghost use Rattle.transcript.specs.Runs.{Asked.to_accept, Asked.to_call, Asked.to_open, State.running};
ghost use Rattle.transcript.specs.Said.{Within, told};
ghost use Rattle.transcript.specs.States.{setup_state, state_of};
ghost use Rattle.transcript.specs.Texts.{Answered, asked_by};

use super::lines::{Answer, Given};
use super::runs::Run;
use calls::{
    acceptance_of, entry_of, new_symbol_of, new_user_of, offering_of, posting_of, price_question_of,
};
use day::forms::{Closed, Refused, Setup, Trading};
use prices::sources::Source;
use records::causes::{Cause, Refusal};
use records::parts::{Kind, Record};
use std::alloc::AllocError;
use venue::rows::Acceptance;

// An `Option`: `read` answers by the letter, and its contract does not say that it is one of a kind.
/// A record that was read: its place in the file, its kind and its fields.
#[derive(Clone, Copy, Debug, PartialEq, Eq)]
pub struct Turn {
    pub at: usize,
    pub kind: Option<Kind>,
    pub fields: Record,
}

impl Turn {
    /// The refusal of a record whose kind this part of the day does not take.
    fn out_of_part(&self) -> Refusal
        ensures { result ≡ refusal OutOfPart self.now.at }
    {
        Cause::OutOfPart.at(self.at)
    }
}

/// Answers a record that leaves the day being set up.
fn set_up<S: Source>(setup: &mut Setup<S>, turn: &Turn) -> Result<(), Refusal>
    requires { turn.now.kind ≢ Some Opening }
    ensures { (room : ℕ) → Answered turn.now.at (setup_state S.rows S.screen setup.old) (asked_by room turn.now.kind turn.now.fields) (setup_state S.rows S.screen setup.new) (told_done result) }
{
    match turn.kind {
        Some(Kind::NewUser) => setup.add_user(new_user_of(&turn.fields)),
        Some(Kind::NewSymbol) => setup.add_symbol(new_symbol_of(&turn.fields)),
        _ => Err(turn.out_of_part()),
    }
}

// A function that holds a day by value clears room for it at each call, so opening and closing have functions of their own.

/// Opens the day with a number.
fn open<S: Source + Drop>(setup: Box<Setup<S>>, day: u32) -> Result<Run<S>, AllocError>
    ensures { IfOk result (λ run. Answered 0 (setup_state S.rows S.screen setup.value) (to_open day) (state_of S.rows S.screen run) (a_number 0)) }
{
    let heap = *Box::allocator(&setup);
    let opened = Box::into_inner(setup).open(day);
    Ok(Run::Trading(Box::new(heap, opened)?))
}

/// Closes the day: a close that is refused leaves it trading.
fn shut<S: Source + Drop>(day: Box<Trading<S>>) -> Result<(Run<S>, Result<(), Refusal>), AllocError>
    ensures { IfOk result (λ q. Answered 0 (running (trading_day S.rows S.screen day.value)) (to_call close) (state_of S.rows S.screen q.0) (told_done q.1)) }
{
    let heap = *Box::allocator(&day);
    // A match: each outcome puts another form of the day on the heap.
    match Box::into_inner(day).close() {
        Ok(closed) => Ok((Run::Closed(Box::new(heap, closed)?), Ok(()))),
        Err(Refused { refusal, day }) => Ok((Run::Trading(Box::new(heap, day)?), Err(refusal))),
    }
}

/// Accepts quotes and files the debt for the trades, and gives how many there are.
fn accept<S: Source>(day: &mut Trading<S>, acceptance: Acceptance) -> Result<u16, Refusal>
    ensures { Answered 0 (running (trading_day S.rows S.screen day.old)) (to_accept acceptance) (running (trading_day S.rows S.screen day.new)) (told_number result) }
{
    let (trades, debt) = day.accept(acceptance)?;
    match day.file(debt) {
        Ok(()) => Ok(trades),
        // The debt of an acceptance just made is always taken.
        Err(_) => unreachable(),
    }
}

/// Answers a record that leaves the day trading.
fn trade<S: Source>(day: &mut Trading<S>, turn: &Turn, buffer: &mut [u8]) -> Answer
    requires { turn.now.kind ≢ Some Closing }
    ensures answered { Answered turn.now.at (running (trading_day S.rows S.screen day.old)) (asked_by (length buffer.old) turn.now.kind turn.now.fields) (running (trading_day S.rows S.screen day.new)) (told buffer.new result) }
    ensures within { Within buffer.new result }
{
    let fields = &turn.fields;
    match turn.kind {
        Some(Kind::Entry) => day.enter(entry_of(fields)).map(Given::from),
        Some(Kind::Quoting) => day.quote(offering_of(fields)).map(Given::from),
        Some(Kind::Pull) => day.pull(fields.user, fields.quote).map(Given::from),
        Some(Kind::Cancel) => day.cancel(fields.user, fields.request).map(Given::from),
        Some(Kind::Acceptance) => accept(day, acceptance_of(fields)).map(Given::from),
        Some(Kind::Clock) => day.move_clock(fields.time).map(Given::from),
        Some(Kind::Posting) => day.post(posting_of(fields)).map(Given::from),
        Some(Kind::PriceQuestion) => day.ask_price(price_question_of(fields)).map(Given::from),
        Some(Kind::ViewQuestion) => day.view(fields.user, buffer).map(Given::Page),
        Some(Kind::BookQuestion) => day
            .book(fields.user, fields.request, buffer)
            .map(Given::Page),
        _ => Err(turn.out_of_part()),
    }
}

/// Answers a record on a closed day, which takes views alone.
fn look_back<S: Source>(day: &Closed<S>, turn: &Turn, buffer: &mut [u8]) -> Result<usize, Refusal>
    ensures answered { Answered turn.now.at (running (closed_day S.rows S.screen day.now)) (asked_by (length buffer.old) turn.now.kind turn.now.fields) (running (closed_day S.rows S.screen day.now)) (told_page buffer.new result) }
    ensures within { IfOk result (λ n. n ≤ length buffer.new) }
{
    match turn.kind {
        Some(Kind::ViewQuestion) => day.view(turn.fields.user, buffer),
        _ => Err(turn.out_of_part()),
    }
}

impl<S: Source + Drop> Run<S> {
    /// Answers a record, and gives the day as it is then.
    pub fn answer(self, turn: &Turn, buffer: &mut [u8]) -> Result<(Run<S>, Answer), AllocError>
        ensures answered { IfOk result (λ q. Answered turn.now.at (state_of S.rows S.screen self) (asked_by (length buffer.old) turn.now.kind turn.now.fields) (state_of S.rows S.screen q.0) (told buffer.new q.1)) }
        ensures within { IfOk result (λ q. Within buffer.new q.1) }
    {
        match (self, turn.kind) {
            (Run::Setting(setup), Some(Kind::Opening)) => {
                Ok((open(setup, turn.fields.day)?, Ok(Given::Number(0))))
            }
            (Run::Setting(mut setup), _) => {
                let answer = set_up(&mut setup, turn);
                Ok((Run::Setting(setup), answer.map(Given::from)))
            }
            (Run::Trading(day), Some(Kind::Closing)) => {
                let (then, answer) = shut(day)?;
                Ok((then, answer.map(Given::from)))
            }
            (Run::Trading(mut day), _) => {
                let answer = trade(&mut day, turn, buffer);
                Ok((Run::Trading(day), answer))
            }
            (Run::Closed(day), _) => {
                let answer = look_back(&day, turn, buffer);
                Ok((Run::Closed(day), answer.map(Given::Page)))
            }
        }
    }
}
