// A page: the lines of some rows, one after another.
ghost use Rattle.std.specs.Prelude.{◌≡◌, ◌+◌, ◌≤◌, IfSome, length};
ghost use Rattle.tables.specs.Tabled.{bare_day};
ghost use Rattle.tables.specs.Priced.{market_day};
ghost use Rattle.records.specs.Writing.{encode, over};
ghost use Rattle.pages.specs.Paged.{Fitted};
ghost use Rattle.pages.specs.declared.rows.Content.TheVariants.{Book, View};
ghost use Rattle.pages.specs.Rows.{Named, Tellable, line_of, own_row, places, row_at, row_bytes};
ghost use Rattle.pages.specs.Told.{told};

use super::lines::{
    FIRST_SHOWN, REQUEST_FIELDS, Seats, WHOLE_REQUEST, executable_record, quote_record,
};
use super::rows::{Content, Line, Listed, Page, Row};
use prices::sources::Source;
use records::causes::Cause;
use records::writing::{encoded_len, lay};
use tables::inner::Market;
use venue::rows::Candidate;

impl Line {
    /// How long the line is.
    fn len(&self) -> usize
        ensures value { result ≡ length (encode self.now.kind self.now.fields) }
        ensures bound { result ≤ 131 }
    {
        encoded_len(self.kind, &self.fields)
    }

    /// Writes the line, and says where the next goes.
    fn put(&self, out: &mut [u8], at: usize) -> usize
        requires { at + length (encode self.now.kind self.now.fields) ≤ length out.old }
        ensures after { out.new ≡ over out.old at (encode self.now.kind self.now.fields) }
        ensures next { result ≡ at + length (encode self.now.kind self.now.fields) }
    {
        lay(self.kind, &self.fields, out, at).unwrap_or(at)
    }
}

impl<'a, S> Page<'a, S> {
    /// The view of a user who sees the requests of a list.
    pub fn view(market: &'a Market<S>, user: u8, seen: &'a [Listed]) -> Page<'a, S>
        requires tellable { Tellable market.now.tables (View seen) }
        requires few { length seen.now ≤ 128 }
        ensures market { result.market.now ≡ market.now }
        ensures user { result.user ≡ user }
        ensures content { result.content ≡ View seen.entry }
    {
        let content = Content::View(seen);
        Page {
            market,
            user,
            content,
        }
    }

    /// The answer to a book question about a request, with its executable quotes.
    pub fn book(market: &'a Market<S>, user: u8, request: u16, line: &'a [Candidate]) -> Page<'a, S>
        requires tellable { Tellable market.now.tables (Book request line) }
        requires few { length line.now ≤ 512 }
        ensures market { result.market.now ≡ market.now }
        ensures user { result.user ≡ user }
        ensures content { result.content ≡ Book request line.entry }
    {
        let content = Content::Book(request, line);
        Page {
            market,
            user,
            content,
        }
    }

    /// How many rows there are, with those of others' quotes and trades, which are not told.
    fn places(&self) -> usize
        ensures value { result ≡ places (bare_day self.now.market.now.tables) self.now.content }
        ensures few { result ≤ 1152 }
    {
        let t = &self.market.tables;
        match self.content {
            Content::View(seen) => seen.len() + (t.quotes.len() + t.trades.len()),
            Content::Book(_, executables) => 1 + executables.len(),
        }
    }

    /// The quote or the trade with a number, the quotes first, if it is the user's own.
    fn own_row(&self, n: usize) -> Option<Row>
        requires { n ≤ 1152 }
        ensures { result ≡ own_row (bare_day self.now.market.now.tables) self.now.user n }
    {
        let t = &self.market.tables;
        let quotes = t.quotes.len();
        if n <= quotes {
            let q = n as u16;
            t.holds(self.user, q).then_some(Row::Quote(q))
        } else {
            let n = (n - quotes) as u16;
            let trade = t.trade(n);
            (trade.buyer == self.user || trade.seller == self.user).then_some(Row::Trade(n))
        }
    }

    /// The row with a number, if it is told.
    fn row(&self, n: usize) -> Option<Row>
        requires { (1 ≤ n) × (n ≤ places (bare_day self.now.market.now.tables) self.now.content) }
        ensures row { result ≡ row_at (bare_day self.now.market.now.tables) self.now.user self.now.content n }
        ensures named { IfSome result (Named self.now.market.now.tables) }
    {
        match self.content {
            Content::View(seen) => {
                if n <= seen.len() {
                    Some(Row::Shown(seen[n - 1].number))
                } else {
                    self.own_row(n - seen.len())
                }
            }
            Content::Book(request, executables) => {
                if n <= 1 {
                    Some(Row::Whole(request))
                } else {
                    Some(Row::Executable(executables[n - 2]))
                }
            }
        }
    }
}

impl<'a, S: Source> Page<'a, S> {
    /// The line of a row.
    fn line(&self, row: Row) -> Line
        requires { Named self.now.market.now.tables row }
        ensures { encode result.kind result.fields ≡ line_of (market_day S.rows S.screen self.now.market.now) self.now.user row }
    {
        let t = &self.market.tables;
        let (kind, fields) = match row {
            Row::Shown(n) => {
                let map = REQUEST_FIELDS + FIRST_SHOWN * u16::from(t.request(n).shown);
                ('r', Seats { t }.request_record(map, n))
            }
            Row::Whole(n) => ('r', Seats { t }.request_record(WHOLE_REQUEST, n)),
            Row::Quote(q) => ('q', quote_record(self.market, q)),
            Row::Trade(n) => ('t', Seats { t }.trade_record(self.user, n)),
            Row::Executable(candidate) => ('e', executable_record(&candidate)),
        };
        Line { kind, fields }
    }

    /// How long the line of the row with a number is: nothing, where it is not told.
    fn row_len(&self, n: usize) -> usize
        requires { (1 ≤ n) × (n ≤ places (bare_day self.now.market.now.tables) self.now.content) }
        ensures value { result ≡ length (row_bytes (market_day S.rows S.screen self.now.market.now) self.now.user (row_at (bare_day self.now.market.now.tables) self.now.user self.now.content n)) }
        ensures bound { result ≤ 131 }
    {
        match self.row(n) {
            Some(row) => self.line(row).len(),
            None => 0,
        }
    }

    /// Writes the line of the row with a number, if it is told, and says where the next goes.
    fn put_row(&self, n: usize, out: &mut [u8], at: usize) -> usize
        requires number { (1 ≤ n) × (n ≤ places (bare_day self.now.market.now.tables) self.now.content) }
        requires room { at + length (row_bytes (market_day S.rows S.screen self.now.market.now) self.now.user (row_at (bare_day self.now.market.now.tables) self.now.user self.now.content n)) ≤ length out.old }
        ensures after { out.new ≡ over out.old at (row_bytes (market_day S.rows S.screen self.now.market.now) self.now.user (row_at (bare_day self.now.market.now.tables) self.now.user self.now.content n)) }
        ensures next { result ≡ at + length (row_bytes (market_day S.rows S.screen self.now.market.now) self.now.user (row_at (bare_day self.now.market.now.tables) self.now.user self.now.content n)) }
    {
        match self.row(n) {
            Some(row) => self.line(row).put(out, at),
            None => at,
        }
    }

    /// How long all the lines are.
    fn len(&self) -> usize
        ensures { result ≡ length (told S.rows S.screen self.now) }
    {
        let mut len = 0;
        for n in 0..self.places() {
            len += self.row_len(n + 1);
        }
        len
    }

    /// Writes all the lines to the front of the buffer.
    fn put(&self, out: &mut [u8])
        requires { length (told S.rows S.screen self.now) ≤ length out.old }
        ensures { out.new ≡ over out.old 0 (told S.rows S.screen self.now) }
    {
        // A `for`: of a buffer that a closure writes, nothing is known behind the call that takes it.
        let mut at = 0;
        for n in 0..self.places() {
            at = self.put_row(n + 1, out, at);
        }
    }

    /// Writes the page to the front of the buffer, if there is room for it, and says how long it is.
    pub fn write(&self, out: &mut [u8]) -> Result<usize, Cause>
        ensures { Fitted (told S.rows S.screen self.now) out.old out.new result }
    {
        let len = self.len();
        if len > out.len() {
            return Err(Cause::BufferShort);
        }
        self.put(out);
        Ok(len)
    }
}
