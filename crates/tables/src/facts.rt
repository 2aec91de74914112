// What is asked of the users, the requests and the quotes of a day.
ghost use Rattle.std.specs.Prelude.{◌≡◌, ◌≤◌, true, not, [], ◌∷◌, ◌++◌, OnOk};
ghost use Rattle.records.specs.Causes.{unless};
ghost use Rattle.records.specs.declared.causes.Cause.TheVariants.{RequestNotOpen};
ghost use Rattle.tables.specs.Tabled.{bare_day};
ghost use Rattle.venue.specs.Calls.{caller_causes, unknown_user};
ghost use Rattle.venue.specs.Days.{holds as holds_quote, is_open as open_life, owns as owns_request, quotable};

use super::inner::Tables;
use super::values::{has_bit, is_user};
use records::causes::Cause;
use venue::rows::Life;

/// Whether a request is open.
pub fn is_open(life: Life) -> bool
    ensures { result ≡ open_life life }
{
    life == Life::Open
}

impl Tables {
    /// Whether a user could be and was not entered.
    pub fn is_unknown_user(&self, user: u8) -> bool
        ensures { result ≡ unknown_user (bare_day self.now) user }
    {
        is_user(user) && !self.user(user).entered
    }

    /// Whether the caller can be and was entered.
    pub fn judge_caller(&self, user: u8) -> Result<(), Cause>
        ensures answer { result ≡ unless (caller_causes (bare_day self.now) user) tt }
        ensures known { OnOk result (user ≤ 63) }
    {
        if !is_user(user) {
            return Err(Cause::OutOfRange);
        }
        if self.is_unknown_user(user) {
            return Err(Cause::UnknownUser);
        }
        Ok(())
    }

    /// Whether a request is open and the user's own.
    pub fn owns(&self, user: u8, n: u16) -> bool
        ensures { result ≡ owns_request (bare_day self.now) user n }
    {
        let row = self.request(n);
        is_open(row.life) && row.requestor == user
    }

    /// Whether the caller can be and was entered, and a request is open and the caller's own.
    pub fn judge_owner(&self, user: u8, n: u16) -> Result<(), Cause>
        ensures answer { result ≡ unless (caller_causes (bare_day self.now) user ++ (RequestNotOpen, not (owns_request (bare_day self.now) user n)) ∷ []) tt }
        ensures own { OnOk result (owns_request (bare_day self.now) user n ≡ true) }
    {
        self.judge_caller(user)?;
        if !self.owns(user, n) {
            return Err(Cause::RequestNotOpen);
        }
        Ok(())
    }

    /// Whether a request is open and was sent to the user.
    pub fn is_quotable(&self, user: u8, n: u16) -> bool
        ensures { result ≡ quotable (bare_day self.now) user n }
    {
        let row = self.request(n);
        is_open(row.life) && has_bit(row.recipients, user)
    }

    /// Whether a quote is a live one of the user's.
    pub fn holds(&self, user: u8, q: u16) -> bool
        ensures { result ≡ holds_quote (bare_day self.now) user q }
    {
        let row = self.quote(q);
        row.live && row.user == user
    }
}
