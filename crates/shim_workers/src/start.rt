// What a worker whose work lies in lanes begins with.
ghost use Rattle.std.specs.Prelude.{◌≡◌, map, IfOk};

use crate::load::NetChair;
use crate::pieces::Pieces;
use shim_base::NoMemory;
use shim_local::{Local, Parcel};
use shim_steal::Lane;
use std::alloc::Global;

/// A worker's chair, and its pieces.
pub(crate) type Start<L> = (NetChair<L>, Pieces<L>);

/// Each chair with a lane. Callers give as many lanes as chairs; with fewer the answer is `NoMemory`.
pub(crate) fn starts<L: Local>(
    alloc: Global,
    chairs: Vec<NetChair<L>>,
    mut lanes: Vec<Lane<Parcel<L>>>,
) -> Result<Vec<Start<L>>, NoMemory>
    ensures chairs { IfOk result (λ starts. map (λ s. s.0) starts.items ≡ chairs.items) }
{
    let mut starts = Vec::with_capacity(alloc, chairs.len())?;
    for chair in chairs {
        let Some(lane) = lanes.pop() else {
            return Err(NoMemory);
        };
        starts.push((chair, Pieces::new(alloc, lane)?))?;
    }
    Ok(starts)
}
