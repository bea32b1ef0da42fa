//! Arcs as records.

ghost use Rattle.std.specs.Prelude.{◌≡◌, ◌++◌, map, OnOk, OnErr};
ghost use Rattle.gp_base.specs.declared.records.Rec.TheVariants.{Arc};

use gp_base::{RawArc, Rec};
use std::alloc::AllocError;

/// Adds the arcs as records. Room for them is taken first: where there is none, the
/// records are unchanged.
pub fn push_arcs(recs: &mut Vec<Rec>, arcs: &[RawArc]) -> Result<(), AllocError>
    ensures added { OnOk result (recs.new.items ≡ recs.old.items ++ map Arc arcs.now) }
    ensures unchanged { OnErr result (recs.new.items ≡ recs.old.items) }
{
    recs.reserve(arcs.len())?;
    for arc in arcs {
        recs.push_reserved(Rec::Arc(*arc));
    }
    Ok(())
}
