//! The results of a builder whose requests are refused, and what it takes and builds then.
use crate::tests::builders::stepped;
use crate::tests::lists::asked;
use std::alloc::{Allocator, Global};
use test_alloc::Refusing;
use vers_bits::bit_vec::GrowError;
use vers_trees::trees::bp::{BpBuilder, BpTree, BuildError};

type Heap = Refusing<Global>;

// Returns a builder that has entered 32 nodes and left them. Their 64 bits fill its capacity.
fn builder_of_64_bits(heap: &Heap) -> Result<BpBuilder<8, &Heap>, GrowError> {
    let entered = stepped(BpBuilder::with_capacity(heap, 32), &[1; 32]);
    stepped(entered, &[0; 32])
}

// Returns the number of bits that the tree of a builder has, and whether they are balanced.
fn built(builder: BpBuilder<8, &Heap>) -> Result<(usize, bool), BuildError> {
    asked(
        builder.build(),
        |tree: &BpTree<8, &Heap>| Ok((tree.len(), tree.is_balanced())),
    )
}

// Returns the results of a builder with every request refused, and with memory again.
fn refused_and_taken_steps<const N: usize, A: Allocator + Copy>(
    heap: &Heap,
    builder: &mut BpBuilder<N, A>,
) -> [Result<(), GrowError>; 4] {
    heap.refuse_all();
    let enters = builder.enter_node();
    let leaves = builder.leave_node();
    heap.allow_all();
    [enters, leaves, builder.enter_node(), builder.leave_node()]
}

// Returns true if a full builder takes no refused step, and takes and builds the granted ones.
fn takes_what_is_granted(heap: &Heap, made: Result<BpBuilder<8, &Heap>, GrowError>) -> bool {
    let Ok(mut builder) = made else {
        return false;
    };
    let refused = Err(GrowError::Memory);
    refused_and_taken_steps(heap, &mut builder) == [refused, refused, Ok(()), Ok(())]
        && built(builder) == Ok((66, true))
}

#[test]
fn after_a_refusal_nodes_are_entered(rt: HostRuntime) {
    let heap = Refusing::none(rt.alloc());
    assert!(rt; takes_what_is_granted(&heap, builder_of_64_bits(&heap)));
}

// Returns true if a builder that has left a node too many returns that error, with every request refused, and
// makes none.
fn reports_excess(heap: &Heap, made: Result<BpBuilder<8, &Heap>, GrowError>) -> bool {
    let Ok(builder) = stepped(made, &[0]) else {
        return false;
    };
    heap.refuse_all();
    let requests = heap.asked();
    built(builder) == Err(BuildError::Excess(-1)) && heap.asked() == requests
}

#[test]
fn the_excess_is_reported_before_memory(rt: HostRuntime) {
    let heap = Refusing::none(rt.alloc());
    assert!(rt; reports_excess(&heap, builder_of_64_bits(&heap)));
}
