// The characters that the calls of one mode push, in the order in which they are drawn.
use classes::{Mode, Shape};
use parse::{Cluster, Pushed};
use records::cells::first;
use records::{Columns, Parser, Refusal};
use segment::{Segmenter, What};

// No mode pushes more than twice as many characters as a text has.
const MOST: usize = 8192;

// A character: whether a cluster begins with it, and one that is broken; whether its record was pushed before; whether more is noted
// after it.
#[derive(Clone, Copy)]
pub(crate) struct Cell {
    pub scalar: u32,
    pub shape: Shape,
    pub begins: bool,
    pub broken: bool,
    pub repeated: bool,
    pub noted: bool,
}

impl Cell {
    const EMPTY: Cell = Cell {
        scalar: 0,
        shape: Shape::Base,
        begins: false,
        broken: false,
        repeated: false,
        noted: false,
    };
}

// The cells that are written, and the index after that of the last record that was pushed.
#[derive(Drop)]
pub(crate) struct Drawn {
    cells: [Cell; MOST],
    len: usize,
    next: usize,
}

impl Drawn {
    pub(crate) fn new() -> Drawn {
        Drawn {
            cells: [Cell::EMPTY; MOST],
            len: 0,
            next: 0,
        }
    }

    pub(crate) fn cells(&self) -> &[Cell] {
        first(&self.cells, self.len)
    }

    fn put(&mut self, c: &Pushed, begins: bool, broken: bool) {
        let index = usize::from(c.index);
        if self.len < MOST {
            self.cells[self.len] = Cell {
                scalar: c.scalar,
                shape: c.class,
                begins,
                broken: begins && broken,
                repeated: index < self.next,
                noted: 0 < c.noted,
            };
            self.len += 1;
            self.next = index + 1;
        }
    }

    fn put_cluster(&mut self, cluster: &Cluster) {
        for (i, c) in cluster.chars.iter().take(cluster.len).enumerate() {
            self.put(c, i == 0, cluster.info.broken);
        }
    }

    // Every call from the start. Each passes a token, so the loop ends.
    #[tactic(auto, using(segment::proofs::Left::fewer))]
    pub(crate) fn collect(
        &mut self,
        parser: Parser,
        mode: Mode,
        columns: &Columns,
    ) -> Result<(), Refusal> {
        let mut state = Segmenter::start(parser, mode);
        loop {
            let answer = state.next(columns);
            match answer.what {
                What::Found => self.put_cluster(&answer.cluster),
                What::Over => return Ok(()),
                What::Refused(refusal) => return Err(refusal),
            }
            state = answer.state;
        }
    }
}
