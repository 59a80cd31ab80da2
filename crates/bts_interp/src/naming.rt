// What a region and its jobs are of.
use std::marker::Brand;

/// The session that a region does, what its history goes on from, and the most activations, as a type: each call of a
/// program that begins a region picks it. So a job of another session can't be brought back to it.
pub trait Naming {
    ghost use Rattle.bts_interp.specs.Names.{Named};

    ghost name: { Named };
}

impl Naming for Brand {
    ghost use Rattle.bts_interp.specs.Names.{nothing};

    ghost name = { nothing };
}
