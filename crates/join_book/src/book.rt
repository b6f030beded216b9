// The book.
ghost use Rattle.std.specs.Prelude.{◌≡◌, ◌↔◌, ◌<◌, ◌≤◌, length, IsTrue, IfOk, OnErr, MatchBool, option_map};
ghost use Rattle.polys.specs.Curve.{Fit, HasDimModulo, data_of};
ghost use Rattle.join_book.specs.Answers.{IsEmpty, IsEntryIn, IsJoin, Settles};
ghost use Rattle.join_book.specs.Book.{ArePointsOf, BookIs};

use super::adding::add_done;
use super::taking::{are_same_points, entry_in, is_taken};
use curve_model::Point;
use lists::{List, NoMemory};
use over_module::{Done, Over};
use polys::Curve;
use race_table::{BookOf, Join, Won};
use std::alloc::Global;
use std::marker::Model;
use std::sync::Arc;

/// The work that was joined for the points of a curve, and the sum of A and of the modules that are settled.
#[derive(Drop)]
pub struct Book {
    curve: Arc<Curve>,
    points: List<Point>,
    limit: u32,
    entries: Vec<Done>,
    joined: Vec<(u32, u32)>,
    settled: usize,
    sum: Over,
}

impl Model for Book {
    ghost use Rattle.join_book.specs.Book.{BookData, BookIs};

    ghost Value = { BookData };

    ghost use Rattle.join_book.specs.Inside.{book_of, HasRoom};

    ghost view = { book_of };

    ghost invariant = { λ b. BookIs (book_of b) × HasRoom b };
}

impl Book {
    /// A book without an entry, with room for one of each point. The curve is fit, `n` is its dimension modulo I and d, the points
    /// are points of it, each once, and the limit of delta is 1 to 64. The stratum i is the point with this number, from 1.
    ///
    /// # Errors
    /// Want of memory.
    pub fn open(
        alloc: Global,
        curve: Arc<Curve>,
        n: u32,
        points: List<Point>,
        limit: u32,
    ) -> Result<Book, NoMemory>
        requires fit { Fit curve.value }
        requires dimension { HasDimModulo (data_of curve.value) n }
        requires points { ArePointsOf curve.value points }
        requires limit { (1 ≤ limit) × (limit ≤ 64) }
        ensures { IfOk result (IsEmpty curve.value points limit) }
    {
        let _prime = curve.prime.get();
        let count = points.len();
        let entries = Vec::with_capacity(alloc, count)?;
        let joined = Vec::with_capacity(alloc, count)?;
        let sum = Over::plain(alloc, Arc::try_clone(&curve)?, n);
        Ok(Book {
            curve,
            points,
            limit,
            entries,
            joined,
            settled: 0,
            sum,
        })
    }

    /// The curve.
    pub fn curve(&self) -> &Arc<Curve>
        ensures { result.now.value ≡ self.now.curve }
    {
        &self.curve
    }

    /// The points; that of the stratum i stands at the place i - 1.
    pub fn points(&self) -> &[Point]
        ensures { result.now ≡ self.now.points }
    {
        self.points.as_slice()
    }

    /// The limit of delta.
    pub fn limit(&self) -> u32
        ensures { result ≡ self.now.limit }
    {
        self.limit
    }

    /// The strata that were joined, each with the seat that won it, in the order of the joins.
    pub fn joined(&self) -> &[(u32, u32)]
        ensures { result.now ≡ self.now.joined }
    {
        self.joined.as_slice()
    }

    /// How many entries are settled.
    pub fn settled(&self) -> usize
        ensures { result ≡ self.now.settled }
    {
        self.settled
    }

    /// The sum of A and of the modules of the settled entries.
    pub fn sum(&self) -> &Over
        ensures value { result.now ≡ self.now.sum }
        ensures known { BookIs self.now }
    {
        &self.sum
    }

    /// What was joined for the stratum, or `None`, exactly where nothing was.
    pub fn entry(&self, stratum: u32) -> Option<&Done>
        ensures { IsEntryIn self.now.entries stratum (option_map (λ d. d.now) result) }
    {
        entry_in(self.entries.as_slice(), stratum)
    }

    /// Whether the book is of this curve, these points and this limit.
    pub fn is_of(&self, curve: &Curve, points: &[Point], limit: u32) -> bool
        ensures { IsTrue result ↔ ((self.now.curve ≡ curve.now) × (self.now.points ≡ points.now) × (self.now.limit ≡ limit)) }
    {
        self.curve.same(curve)
            && are_same_points(self.points.as_slice(), points)
            && self.limit == limit
    }
}

impl BookOf for Book {
    ghost use Rattle.std.specs.Prelude.{⊤};

    type Done = Done;

    ghost may_be_strange = { ⊤ };

    /// Joins what was done for the stratum that was won. `Stranger` comes exactly where it is not work on the book's curve and
    /// limit and on the point of this stratum, or where the stratum has an entry; then the book is as it was.
    fn join(&mut self, won: Won, done: Done) -> Join<Done>
        ensures { IsJoin self.old won done result self.new }
    {
        let (stratum, seat) = won.spend();
        let _known = done.verdict();
        let points = self.points.as_slice();
        let entries = self.entries.as_slice();
        if !is_taken(&self.curve, points, self.limit, entries, stratum, &done) {
            return Join::Stranger(done);
        }
        self.entries.push_reserved(done);
        self.joined.push_reserved((stratum, seat));
        Join::Kept
    }

    /// Settles the next entry in the order of the joins: its module is added to the sum. False comes exactly where all entries
    /// are settled.
    ///
    /// # Errors
    /// Want of memory; then the book is as it was.
    fn settle(&mut self) -> Result<bool, NoMemory>
        ensures ok { IfOk result (λ more. MatchBool more (Settles self.old self.new) ((self.new ≡ self.old) × (self.old.settled ≡ length self.old.entries))) }
        ensures err { OnErr result (self.new ≡ self.old) }
    {
        if self.settled == self.entries.len() {
            return Ok(false);
        }
        add_done(&mut self.sum, &self.entries[self.settled])?;
        self.settled += 1;
        Ok(true)
    }
}
