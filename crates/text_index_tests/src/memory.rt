//! The constructor of a text and its allocating queries, each of their requests refused in turn, and the other
//! queries, which allocate nothing.
use crate::loads::are_rows;
use crate::shared::{are_counted, are_first, are_plain, periodic};
use std::alloc::{AllocError, Allocator, Global};
use test_alloc::{
    Check, Ending, Making, Refusing, Trial, Tried, first_wrong_trial, tried_on, try_clone_checked,
    try_making,
};
use text_index::{TextError, TextIndex};

type Heap = Refusing<Global>;

// Lengths of texts, up to one whose levels have more than one word.
const LENGTHS: [usize; 5] = [0, 1, 2, 65, 200];

// Symbols of two bits of which a text is made.
#[derive(Drop)]
struct Indexing<'a, A: Allocator + Copy> {
    alloc: A,
    symbols: &'a [u64],
}

impl<A: Allocator + Copy> Making for Indexing<'_, A> {
    type Made = TextIndex<A>;

    type Fault = TextError;

    fn make(&self) -> Result<TextIndex<A>, TextError> {
        TextIndex::with_step(self.alloc, self.symbols, 2, 4)
    }

    fn is_right(&self, text: &TextIndex<A>) -> bool {
        are_counted(text, self.symbols)
    }
}

fn tried(heap: &Heap, symbols: &[u64]) -> Ending {
    let indexing = Indexing {
        alloc: heap,
        symbols,
    };
    try_making(heap, &indexing)
}

// The constructor of a text, and the calls that allocate.
#[derive(Clone, Copy, Drop)]
enum Call {
    Make,
    Clone,
    First,
    Ascending,
    Extract,
    Rows,
}

// The symbols of a text that was made.
#[derive(Clone, Copy, Drop)]
struct SymbolsOf<'a> {
    symbols: &'a [u64],
}

impl<A: Allocator + Copy> Check<TextIndex<A>> for SymbolsOf<'_> {
    fn is_right(&self, text: &mut TextIndex<A>) -> bool {
        are_counted(text, self.symbols)
    }
}

fn cloned(heap: &Heap, symbols: &[u64]) -> Ending {
    let check = SymbolsOf { symbols };
    try_clone_checked(heap, TextIndex::from_slice(heap, symbols, 2), &check)
}

// The query that returns all symbols of a text.
#[derive(Drop)]
struct Extracting<'a, A: Allocator + Copy> {
    text: &'a TextIndex<A>,
    symbols: &'a [u64],
}

impl<A: Allocator + Copy> Making for Extracting<'_, A> {
    type Made = Option<Vec<u64, A>>;

    type Fault = AllocError;

    fn make(&self) -> Result<Option<Vec<u64, A>>, AllocError> {
        self.text.extract(0..self.symbols.len())
    }

    fn is_right(&self, found: &Option<Vec<u64, A>>) -> bool {
        match found {
            Some(piece) => piece.as_slice() == self.symbols,
            None => false,
        }
    }
}

// The call that lists the rows of the sampled positions.
#[derive(Drop)]
struct Sampling<'a, A: Allocator + Copy> {
    text: &'a TextIndex<A>,
    symbols: &'a [u64],
}

impl<A: Allocator + Copy> Making for Sampling<'_, A> {
    type Made = Vec<u32, A>;

    type Fault = AllocError;

    fn make(&self) -> Result<Vec<u32, A>, AllocError> {
        self.text.kept_rows()
    }

    fn is_right(&self, rows: &Vec<u32, A>) -> bool {
        are_rows(rows.as_slice(), self.symbols, self.text.step())
    }
}

// A call that lists the positions of a symbol in a text.
#[derive(Drop)]
struct Listing<'a, A: Allocator + Copy> {
    call: Call,
    text: &'a TextIndex<A>,
    symbols: &'a [u64],
}

impl<A: Allocator + Copy> Making for Listing<'_, A> {
    type Made = Vec<usize, A>;

    type Fault = AllocError;

    fn make(&self) -> Result<Vec<usize, A>, AllocError> {
        if matches!(self.call, Call::First) {
            return self.text.first_places(&[1], 5);
        }
        self.text.places_ascending(&[1])
    }

    fn is_right(&self, found: &Vec<usize, A>) -> bool {
        if matches!(self.call, Call::First) {
            return are_first(self.text, &[1], 5, found.as_slice());
        }
        are_plain(self.symbols, &[1], found.as_slice())
    }
}

// The same, of any text.
#[derive(Drop)]
struct Listed<'a, B: Allocator> {
    heap: &'a Refusing<B>,
    call: Call,
    symbols: &'a [u64],
}

impl<B: Allocator, A: Allocator + Copy> Tried<TextIndex<A>> for Listed<'_, B> {
    fn tried(&self, text: &TextIndex<A>) -> Ending {
        if matches!(self.call, Call::Extract) {
            let extracting = Extracting {
                text,
                symbols: self.symbols,
            };
            return try_making(self.heap, &extracting);
        }
        if matches!(self.call, Call::Rows) {
            let sampling = Sampling {
                text,
                symbols: self.symbols,
            };
            return try_making(self.heap, &sampling);
        }
        let listing = Listing {
            call: self.call,
            text,
            symbols: self.symbols,
        };
        try_making(self.heap, &listing)
    }
}

fn tried_listing(heap: &Heap, call: Call, symbols: &[u64]) -> Ending {
    let listed = Listed {
        heap,
        call,
        symbols,
    };
    tried_on(TextIndex::from_slice(heap, symbols, 2), &listed)
}

impl Trial<Global> for Call {
    fn run(self, heap: &Heap, len: usize) -> Ending {
        let Ok(symbols) = periodic(heap, len, 3) else {
            return Ending::Wrong;
        };
        match self {
            Call::Make => tried(heap, symbols.as_slice()),
            Call::Clone => cloned(heap, symbols.as_slice()),
            _ => tried_listing(heap, self, symbols.as_slice()),
        }
    }

    // A text without the symbol has no positions to list, and the empty text no symbols.
    fn takes_memory(self, len: usize) -> bool {
        match self {
            Call::Make | Call::Clone | Call::Rows => true,
            Call::First | Call::Ascending => len > 1,
            Call::Extract => len > 0,
        }
    }
}

#[test]
fn each_request_is_refused_in_turn(rt: HostRuntime) {
    let calls = [
        Call::Make,
        Call::Clone,
        Call::First,
        Call::Ascending,
        Call::Extract,
        Call::Rows,
    ];
    assert!(rt; first_wrong_trial(rt.alloc(), &LENGTHS, &calls).is_none());
}
