//! Equivalences of complexes: three maps, pi, iota and h, between a complex and a smaller one.
//!
//! pi d = d' pi, d iota = iota d', pi iota = 1 and 1 - iota pi = d h + h d, where d and d' are the coboundaries of the
//! two: so both have the same cohomology, and bases of it are carried along. Each removal gives one, and they compose.
#![tactic(auto)]

mod laws;

pub use laws::{
    after_is_by_removals, cocycles_have_coordinates, composite_exists, composite_is_equivalence,
    composite_is_unique, equivalence_carries_bases, equivalences_compose, next_is_composite,
    operations_give_next, pairs_give_bases, pairs_give_equivalence, pairs_have_composite,
    pairs_tell_composite, removal_gives_equivalence, removals_give_bases, unit_images_are_basis,
};
