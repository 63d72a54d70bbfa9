// A run by a table under way: what one cell makes of it. The loops `by_table` of way.rt and `by_parts` of parted.rt are this.
#![tactic(auto, unfolding(crate::specs::Going::last_cell, crate::specs::Going::stop_of, crate::specs::Going::back_of, crate::specs::Going::turned, crate::specs::Going::put_by, tables::specs::Symbols::cell_at))]

ghost use Rattle.std.specs.Prelude.{◌≡◌, ◌-◌, ◌<◌, ◌≤◌, eqb, length};
ghost use Rattle.tables.specs.Symbols.{joined_at, cell_at};
ghost use Rattle.segment.specs.Going.{goes_on, given_up, last_cell, stop_of, back_of, refilled, overed, noted, turned, Writable, Wrote};

use classes::Mode;

// Where a run stands between two clusters.
#[derive(Clone, Copy)]
pub(crate) struct Stand {
    pub at: usize,
    pub clusters: usize,
    pub characters: usize,
}

// The place, the row of the table, how many clusters are begun, how many characters are written, and the number at which the cluster
// under way is full.
#[derive(Clone, Copy)]
pub(crate) struct Going {
    pub at: usize,
    pub row: usize,
    pub clusters: usize,
    pub stop: usize,
    pub characters: usize,
}

// What a turn looks at: a token's cell and its scalar. What the cell does is 2 bits of it, 0 to 3, as tools/tables writes the tables: it is
// no enum.
#[derive(Clone, Copy)]
pub(crate) struct Look {
    pub cell: u16,
    pub scalar: u32,
}

// The cell by which a cluster is over.
pub(crate) const OVER: u16 = 48;

// A U+034F within a cluster, where it is stepped over.
fn joining(joins: bool, x: u32, row: usize) -> bool
    ensures { result ≡ joined_at joins x row }
{
    joins && x == classes::scalar::CGJ && 0 < row
}

// The cell of a table at an index.
pub(crate) fn cell_at(joins: bool, table: &[u16], x: u32, index: usize, row: usize) -> u16
    requires { (index < length table.now) × (row < 64) }
    ensures { result ≡ cell_at joins table.now x index row }
{
    if joining(joins, x, row) {
        return (row * 64 + 14) as u16;
    }
    table[index]
}

// Whether a cell gives up the cluster that would begin here: the calls make it.
pub(crate) fn gives_up(v: u16, row: usize) -> bool
    ensures { result ≡ given_up v row }
{
    v / 16 % 4 == 3 && row == 0
}

// Where the cluster is full: a new one 32 cells on.
fn stop_of(what: usize, o: usize, stop: usize) -> usize
    requires { o ≤ 65535 }
    ensures { result ≡ stop_of what o stop }
{
    if what == 1 { o + 32 } else { stop }
}

// The place behind a full cluster, seen from the one after its last token: in crate mode that token stays current (SCOPE 6.7).
fn back(mode: Mode, i: usize) -> usize
    requires { 1 ≤ i }
    ensures { result ≡ back_of mode i }
{
    match mode {
        Mode::Crate => i - 1,
        Mode::Whole => i,
    }
}

// The number of the cluster under way, of so many that are begun.
fn number(clusters: usize) -> u16
    requires { clusters ≤ 65535 }
    ensures { result ≡ clusters - 1 }
{
    if clusters == 0 {
        0
    } else {
        (clusters - 1) as u16
    }
}

impl Stand {
    pub(crate) const START: Stand = Stand {
        at: 0,
        clusters: 0,
        characters: 0,
    };
}

impl Going {
    pub(crate) const START: Going = Going {
        at: 0,
        row: 0,
        clusters: 0,
        stop: 32,
        characters: 0,
    };

    pub(crate) fn is_full(self) -> bool
        ensures { result ≡ eqb self.characters self.stop }
    {
        self.characters == self.stop
    }

    // Whether the next character is the last that the cluster has room for, in whole mode.
    pub(crate) fn has_last_cell(self, mode: Mode) -> bool
        requires { self.characters ≤ 65535 }
        ensures { result ≡ last_cell mode self.characters self.stop }
    {
        matches!(mode, Mode::Whole) && self.characters + 1 == self.stop
    }

    // Whether a text of n tokens has a turn more: a full cluster of crate mode has, since its last token is looked at again.
    pub(crate) fn goes_on(self, n: usize) -> bool
        ensures { result ≡ goes_on self n }
    {
        self.is_full() || self.at < n
    }

    // Behind a full cluster.
    pub(crate) fn refill(self, mode: Mode) -> Going
        requires { (1 ≤ self.at) × (self.characters ≤ 65535) }
        ensures { result ≡ refilled mode self }
    {
        Going {
            at: back(mode, self.at),
            row: 0,
            stop: self.characters + 32,
            ..self
        }
    }

    // The cluster is over: the current token is looked at again, between two clusters.
    pub(crate) fn over(self) -> Going
        ensures { result ≡ overed self }
    {
        Going { row: 0, ..self }
    }

    // The current token is noted.
    fn note(self, v: u16) -> Going
        requires { self.at ≤ 65535 }
        ensures { result ≡ noted self v }
    {
        Going {
            at: self.at + 1,
            row: (v / 64) as usize,
            ..self
        }
    }

    // The current token, a character of scalar x, by its cell: the cluster is over, the token is noted, or it is written. The three columns
    // are parameters, here and in all that write: C lends each by itself, and the contracts say of each what is in it (`Wrote`, `Reached`).
    pub(crate) fn turn(
        self,
        v: u16,
        x: u32,
        oscalars: &mut [u32],
        oclasses: &mut [u8],
        oclusters: &mut [u16],
    ) -> Going
        requires { Writable self oscalars.old oclasses.old oclusters.old }
        ensures { (result ≡ turned self v) × Wrote self v x oscalars oclasses oclusters }
    {
        let what = (v / 16 % 4) as usize;
        if what == 3 {
            return self.over();
        }
        if what == 2 {
            return self.note(v);
        }
        let o = self.characters;
        let clusters = self.clusters + what;
        oscalars[o] = x;
        oclasses[o] = (v % 16) as u8;
        oclusters[o] = number(clusters);
        Going {
            at: self.at + 1,
            row: (v / 64) as usize,
            clusters,
            stop: stop_of(what, o, self.stop),
            characters: o + 1,
        }
    }

    pub(crate) fn stand(self) -> Stand
        ensures { result ≡ record { at = self.at; clusters = self.clusters; characters = self.characters } }
    {
        Stand {
            at: self.at,
            clusters: self.clusters,
            characters: self.characters,
        }
    }
}
