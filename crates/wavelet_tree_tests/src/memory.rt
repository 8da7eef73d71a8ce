//! The calls that allocate, each of their requests refused in turn, and the memory that a tree takes.
use crate::lists::{LOOKS, Look, symbols_of, tree_of};
use crate::loads::loaded;
use std::alloc::{AllocError, Allocator, Global};
use test_alloc::{
    Check, Ending, Making, Refusing, Size, Sizing, Spare, Trial, Tried, first_wrong_size,
    first_wrong_trial, spare_of, tried_on, try_clone_checked, try_making,
};
use wavelet_tree::{PartsError, WaveletTree};

type Heap = Refusing<Global>;

// Lengths of lists, up to one whose bits have more than one word.
const LENGTHS: [usize; 5] = [0, 1, 2, 65, 200];

// Symbols of which a tree is made.
#[derive(Drop)]
struct Indexing<'a, A: Allocator + Copy> {
    alloc: A,
    symbols: &'a [u8],
}

// Returns true if a tree has these symbols.
fn has_symbols<A: Allocator + Copy>(tree: &WaveletTree<A>, symbols: &[u8]) -> bool {
    for position in 0..tree.len().min(symbols.len()) {
        if tree.get(position) != u64::from(symbols[position]) {
            return false;
        }
    }
    tree.len() == symbols.len()
}

impl<A: Allocator + Copy> Making for Indexing<'_, A> {
    type Made = WaveletTree<A>;

    type Fault = AllocError;

    fn make(&self) -> Result<WaveletTree<A>, AllocError> {
        tree_of(self.alloc, self.symbols)
    }

    fn is_right(&self, tree: &WaveletTree<A>) -> bool {
        has_symbols(tree, self.symbols)
    }
}

// Symbols of whose parts a tree is made.
#[derive(Drop)]
struct Loading<'a, A: Allocator + Copy> {
    alloc: A,
    symbols: &'a [u8],
}

impl<A: Allocator + Copy> Making for Loading<'_, A> {
    type Made = WaveletTree<A>;

    type Fault = PartsError;

    fn make(&self) -> Result<WaveletTree<A>, PartsError> {
        loaded(self.alloc, self.symbols)
    }

    fn is_right(&self, tree: &WaveletTree<A>) -> bool {
        has_symbols(tree, self.symbols)
    }
}

// The call that returns the symbols of a tree.
#[derive(Drop)]
struct Reading<'a, A: Allocator + Copy> {
    alloc: A,
    tree: &'a WaveletTree<A>,
    symbols: &'a [u8],
}

impl<A: Allocator + Copy> Making for Reading<'_, A> {
    type Made = Vec<u8, A>;

    type Fault = AllocError;

    fn make(&self) -> Result<Vec<u8, A>, AllocError> {
        if self.tree.bit_len() > 8 {
            return Err(AllocError);
        }
        self.tree.to_integers(self.alloc)
    }

    fn is_right(&self, found: &Vec<u8, A>) -> bool {
        found.as_slice() == self.symbols
    }
}

// The same, of any tree.
#[derive(Drop)]
struct Read<'a> {
    heap: &'a Heap,
    symbols: &'a [u8],
}

impl<'a> Tried<WaveletTree<&'a Heap>> for Read<'a> {
    fn tried(&self, tree: &WaveletTree<&'a Heap>) -> Ending {
        let reading = Reading {
            alloc: self.heap,
            tree,
            symbols: self.symbols,
        };
        try_making(self.heap, &reading)
    }
}

fn tried_reading(heap: &Heap, symbols: &[u8]) -> Ending {
    let read = Read { heap, symbols };
    tried_on(tree_of(heap, symbols), &read)
}

fn tried_parts(heap: &Heap, symbols: &[u8]) -> Ending {
    let loading = Loading {
        alloc: heap,
        symbols,
    };
    try_making(heap, &loading)
}

fn tried(heap: &Heap, symbols: &[u8]) -> Ending {
    let indexing = Indexing {
        alloc: heap,
        symbols,
    };
    try_making(heap, &indexing)
}

// The symbols of a tree that was made.
#[derive(Clone, Copy, Drop)]
struct SymbolsOf<'a> {
    symbols: &'a [u8],
}

impl<A: Allocator + Copy> Check<WaveletTree<A>> for SymbolsOf<'_> {
    fn is_right(&self, tree: &mut WaveletTree<A>) -> bool {
        has_symbols(tree, self.symbols)
    }
}

fn cloned(heap: &Heap, symbols: &[u8]) -> Ending {
    let check = SymbolsOf { symbols };
    try_clone_checked(heap, tree_of(heap, symbols), &check)
}

// A call that allocates.
#[derive(Clone, Copy, Drop)]
enum Call {
    Make(Look),
    Load(Look),
    Clone(Look),
    Read(Look),
}

const CALLS: [Call; 8] = [
    Call::Make(Look::Turning),
    Call::Make(Look::Skewed),
    Call::Load(Look::Turning),
    Call::Load(Look::Skewed),
    Call::Clone(Look::Turning),
    Call::Clone(Look::Equal),
    Call::Read(Look::Equal),
    Call::Read(Look::Skewed),
];

impl Trial<Global> for Call {
    fn run(self, heap: &Heap, len: usize) -> Ending {
        let look = match self {
            Call::Make(look) | Call::Load(look) | Call::Clone(look) | Call::Read(look) => look,
        };
        let Ok(symbols) = symbols_of(heap, look, len) else {
            return Ending::Wrong;
        };
        match self {
            Call::Make(_) => tried(heap, symbols.as_slice()),
            Call::Load(_) => tried_parts(heap, symbols.as_slice()),
            Call::Clone(_) => cloned(heap, symbols.as_slice()),
            Call::Read(_) => tried_reading(heap, symbols.as_slice()),
        }
    }

    // No symbols take no memory.
    fn takes_memory(self, len: usize) -> bool {
        !matches!(self, Call::Read(_)) || len > 0
    }
}

#[test]
fn calls_are_refused_in_turn(rt: HostRuntime) {
    let wrong = first_wrong_trial(rt.alloc(), &LENGTHS, &CALLS);
    assert_eq!(rt; wrong, None, "a length and a row");
}

// The size that a tree reports.
#[derive(Clone, Copy, Drop)]
struct HeapSize;

impl<A: Allocator + Copy> Size<WaveletTree<A>> for HeapSize {
    fn bytes(&self, tree: &WaveletTree<A>) -> usize {
        tree.heap_size()
    }
}

// A tree of a look.
#[derive(Clone, Copy, Drop)]
struct TreeOf {
    look: Look,
}

// A tree and its clone use what they report: what is allocated while a tree is made is of that size, or freed.
impl Sizing<Global> for TreeOf {
    fn spare(self, inner: Global, heap: &Heap, len: usize) -> Option<Spare> {
        match symbols_of(inner, self.look, len) {
            Ok(symbols) => spare_of(heap, tree_of(heap, symbols.as_slice()), &HeapSize),
            Err(_) => None,
        }
    }

    fn is_allowed(self, _len: usize, spare: Spare) -> bool {
        spare.cloned == 0 && spare.made == 0
    }
}

// Lengths of lists whose vectors would show that they grow by doubling.
const SIZES: [usize; 6] = [0, 1, 64, 65, 600, 5000];

#[test]
fn a_tree_takes_what_it_reports(rt: HostRuntime) {
    for look in LOOKS {
        assert!(rt; first_wrong_size(rt.alloc(), &SIZES, &[TreeOf { look }]).is_none());
    }
}
