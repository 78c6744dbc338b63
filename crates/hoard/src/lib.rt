//! All memory that can be had.
#![tactic(auto)]

use std::alloc::{AllocError, Global};

// What is given back for work is this many blocks of so many bytes. The C library maps no block of this size on its own, so that those beside each
// other make one room when they are given back.
const BLOCKS: usize = 128;

const BLOCK: usize = 126_976;

// A budget is given back in blocks of so many bytes, more than any growth of a case needs.
const ROOMS: usize = 8;

const ROOM: usize = 32_768;

/// The largest budget, in bytes.
pub const MOST_BUDGET: usize = ROOMS * ROOM;

// In blocks of at most this size it is taken again, each half as large as those before: what lies between two blocks that stay is so taken in few.
const LARGEST: usize = 4_194_304;

// Of each size of small blocks, in steps of 16 bytes up to 1,032, the C library keeps some of those that were given back, which no other size can have.
const SIZES: usize = 66;

const KEPT: usize = 7;

// These are of so many bytes together, at most.
const SMALL: usize = 262_144;

// Where so many blocks were taken, what is kept lies apart, and divides the rest.
const MANY: usize = 800;

// More blocks of one size are never there to be had.
const MOST: usize = 65_536;

// The C library gives a thread whole pages. A block of this size is mapped on its own, each time, and leaves no place for an arena of a thread.
const PAGE: usize = 4096;

// It puts so many bytes before a block of whole pages.
const HEAD: usize = 24;

const REGION: usize = 12_288 * PAGE;
// More pages than those of what is given back for work.
const MAPPED: usize = 4096;

// How many places for stacks there are.
const STACKS: usize = 2;

/// The most pages that threads can be left.
pub const MOST_PAGES: usize = 2048;

/// All memory that can be had, in blocks that are never written, but for a part that is given back for work: whoever wants more is really refused.
///
/// As long as there is one thread, the C library gives it parts of its heap alone. Once there was a second one it gives whole pages, too, and to threads
/// that were made later these alone: each growth takes one at least.
#[derive(Drop)]
pub struct Hoard {
    alloc: Global,
    // what is given back, and taken again
    near: Vec<Vec<u8>>,
    rooms: Vec<Vec<u8>>,
    // where the small blocks lie that the C library keeps, and these while it doesn't
    small: Vec<Vec<u8>>,
    kept: Vec<Vec<u8>>,
    // two places for the stacks of threads, and what these can have besides
    stacks: Vec<Vec<u8>>,
    pages: Vec<Vec<u8>>,
    // what is taken of that again
    taken: Vec<Vec<u8>>,
    // all else
    far: Vec<Vec<u8>>,
}

impl Hoard {
    /// Takes all memory, and gives back what work needs. The error is that there isn't as much.
    pub fn new(alloc: Global) -> Result<Hoard, AllocError> {
        let mut hoard = Hoard {
            alloc,
            near: Vec::with_capacity(alloc, MOST)?,
            rooms: Vec::with_capacity(alloc, ROOMS)?,
            small: Vec::with_capacity(alloc, 1)?,
            kept: Vec::with_capacity(alloc, SIZES * KEPT)?,
            stacks: Vec::with_capacity(alloc, STACKS)?,
            pages: Vec::with_capacity(alloc, 1)?,
            taken: Vec::with_capacity(alloc, MOST_PAGES)?,
            far: Vec::with_capacity(alloc, 2 * MOST)?,
        };
        for _ in 0..STACKS {
            hoard.stacks.push(Vec::with_capacity(alloc, REGION)?)?;
        }
        hoard.pages.push(Vec::with_capacity(alloc, REGION)?)?;
        for _ in 0..BLOCKS {
            hoard.near.push(Vec::with_capacity(alloc, BLOCK)?)?;
        }
        take_halves(alloc, &mut hoard.far, 1 << 46);
        hoard.feed();
        Ok(hoard)
    }

    /// Leaves this many bytes, of at most `MOST_BUDGET`, and what the C library needs to hand them out.
    pub fn starve(&mut self, budget: usize) {
        take(self.alloc, &mut self.rooms, ROOM, ROOMS);
        take_kept(self.alloc, &mut self.near);
        take_halves(self.alloc, &mut self.near, LARGEST);
        for _ in 0..budget / ROOM {
            drop(self.rooms.pop());
        }
        let rest = budget % ROOM;
        if rest > 0 {
            drop(self.rooms.pop());
            take(self.alloc, &mut self.rooms, ROOM - rest, 1);
        }
    }

    /// Gives back what work needs.
    pub fn feed(&mut self) {
        if self.near.len() > MANY {
            self.gather();
        }
        self.near.clear();
        self.rooms.clear();
        take(self.alloc, &mut self.small, SMALL, 1);
    }

    // Has the C library keep small blocks that lie together: they are the first that are given back, and are cut out of one block.
    fn gather(&mut self) {
        self.small.clear();
        take_kept(self.alloc, &mut self.kept);
        self.kept.clear();
    }

    /// Gives back one of two places for the stacks of threads. They stay there, so that `fence` takes what is left.
    pub fn give_stacks(&mut self) {
        drop(self.stacks.pop());
    }

    /// Takes what is left beside the stacks of the threads that have run, to a page.
    pub fn fence(&mut self) {
        let before = self.far.len();
        for pages in 0..REGION / PAGE - MAPPED {
            take(self.alloc, &mut self.far, REGION - pages * PAGE, 1);
            if self.far.len() > before {
                return;
            }
        }
    }

    /// Leaves threads this many pages, of at most `MOST_PAGES`. None is in use then.
    pub fn leave_pages(&mut self, pages: usize) {
        self.pages.clear();
        self.taken.clear();
        take(
            self.alloc,
            &mut self.pages,
            REGION - pages.min(MOST_PAGES) * PAGE,
            1,
        );
    }

    /// Takes the pages that threads were left and don't use, but for this many. One of these threads calls it.
    pub fn take_pages(&mut self, left: usize) {
        take(self.alloc, &mut self.taken, PAGE - HEAD, MOST_PAGES);
        for _ in 0..left {
            drop(self.taken.pop());
        }
    }

    /// Whether nothing is left where nothing is to be left.
    pub fn is_all(&mut self) -> bool {
        self.starve(0);
        let is_refused = Vec::<u8>::with_capacity(self.alloc, 16).is_err();
        self.feed();
        is_refused
    }
}

// Takes small blocks of each size, as many as the C library keeps.
fn take_kept(alloc: Global, blocks: &mut Vec<Vec<u8>>) {
    for step in 1..SIZES {
        take(alloc, blocks, 16 * step - 8, KEPT);
    }
}

// Takes what is left, in blocks of at most this size, each half as large as the one before.
fn take_halves(alloc: Global, blocks: &mut Vec<Vec<u8>>, most: usize) {
    let mut size = most;
    for _ in 0..48 {
        take(alloc, blocks, size, MOST);
        size = size / 2;
    }
}

// Takes at most so many blocks of a size, as far as there are any and room to name them.
fn take(alloc: Global, blocks: &mut Vec<Vec<u8>>, size: usize, most: usize) {
    if size < 8 {
        return;
    }
    for _ in 0..most {
        if blocks.len() == blocks.capacity() {
            return;
        }
        match Vec::with_capacity(alloc, size) {
            Ok(block) => {
                if blocks.push(block).is_err() {
                    return;
                }
            }
            Err(_) => return,
        }
    }
}
