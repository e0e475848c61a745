//! What is true of every sound arc.
ghost use Rattle.path_geometry.specs.Motions.{IsSoundArc};
ghost use Rattle.path_geometry.specs.Rings.{IsInRing};
ghost use Rattle.path_geometry.specs.declared.motion.Arc as arcs;

/// A law: a sound arc starts and ends in the ring between its radii, which are below 2^25, and not on its centre.
pub fn sound_arcs_run_in_a_ring()
    ensures { (arc : arcs.Arc) → IsSoundArc arc → IsInRing arc }
{}
