//! Longest paths in the graph of difference rows, and its cycles of positive weight.

ghost use Rattle.std.specs.Prelude.{◌≡◌, [], ◌∷◌, ◌^◌, ◌+ℤ◌, IfOk};
ghost use Rattle.std.specs.List.{position};
ghost use Rattle.logic_linear.specs.LightCubes.{IsWithin};
ghost use Rattle.logic_solve.specs.inner.Different.{Among};
ghost use Rattle.logic_solve.specs.inner.Paths.{comes_from, is_of, height_at, path_at};
ghost use Rattle.logic_solve.specs.inner.Paths.{with_reached, AreEdges, IsReached, Passes, Relaxes};
ghost use Rattle.logic_solve.specs.inner.Paths.{EndsSearch};

use std::alloc::{AllocError, Global};

/// A difference row as an edge: the vertex `to` is at least `weight` above the vertex `from`. The
/// vertex 0 is the number 0, and each other one the variable at the place before it.
#[derive(Clone, Copy, Debug)]
pub(crate) struct Edge {
    pub from: u64,
    pub to: u64,
    pub weight: i128,
    /// The number of its row.
    pub number: u32,
}

/// A vertex, and the weight and the edges, the last first, of the heaviest path to it that is
/// known.
#[derive(Debug, Drop)]
pub(crate) struct Reached {
    pub vertex: u64,
    pub height: i128,
    pub path: Vec<Edge>,
}

/// What a pass over edges does.
#[derive(Debug, Drop)]
pub(crate) enum Relaxed {
    /// All heights were high enough.
    Same,
    /// A height rose.
    Higher,
    /// There is a cycle of positive weight.
    Closed(Vec<Edge>),
}

/// How high the vertex is known to stand.
pub(crate) fn height_of(reached: &[Reached], vertex: u64) -> i128
    ensures { result ≡ height_at reached.now vertex }
{
    for one in reached {
        if one.vertex == vertex {
            return one.height;
        }
    }
    0
}

/// The path by which the vertex was reached.
fn path_of<'a>(reached: &'a [Reached], vertex: u64) -> &'a [Edge]
    ensures { result.now ≡ path_at reached.now vertex }
{
    for one in reached {
        if one.vertex == vertex {
            return one.path.as_slice();
        }
    }
    &[]
}

/// The number of the vertex's entry.
fn entry_of(reached: &[Reached], vertex: u64) -> Option<usize>
    ensures { result ≡ position (is_of vertex) reached.now }
{
    reached.iter().position(|one| one.vertex == vertex)
}

/// Puts the entry in place of its vertex's.
fn put(reached: &mut Vec<Reached>, new: Reached) -> Result<(), AllocError>
    ensures { IfOk result (λ done. reached.new.items ≡ with_reached reached.old.items new) }
{
    if let Some(at) = entry_of(reached, new.vertex) {
        reached[at] = new;
        return Ok(());
    }
    reached.push(new)?;
    Ok(())
}

/// The number of the path's first edge that comes from the vertex.
fn leaving(path: &[Edge], vertex: u64) -> Option<usize>
    ensures { result ≡ position (comes_from vertex) path.now }
{
    path.iter().position(|edge| edge.from == vertex)
}

/// The edge, and then those of the path.
fn lengthened(alloc: Global, edge: Edge, path: &[Edge]) -> Result<Vec<Edge>, AllocError>
    ensures { IfOk result (λ all. all.items ≡ edge ∷ path.now) }
{
    let mut all = Vec::new(alloc);
    all.push(edge)?;
    for one in path {
        all.push(*one)?;
    }
    Ok(all)
}

/// How high the end of an edge must stand.
fn height_after(height: i128, weight: i128) -> i128
    requires height { IsWithin (2 ^ 111) height }
    requires weight { IsWithin (2 ^ 95) weight }
    ensures { result ≡ height +ℤ weight }
{
    height + weight
}

/// Raises the edge's end where it is too low, unless the path to its start comes from there.
fn relax(
    alloc: Global,
    edge: Edge,
    edges: &[Edge],
    reached: &mut Vec<Reached>,
) -> Result<Relaxed, AllocError>
    requires among { Among edge edges.now }
    requires edges { AreEdges edges.now }
    requires reached { IsReached edges.now reached.now.items }
    ensures { IfOk result (Passes edges.now edge reached.old.items reached.new.items) }
{
    let height = height_after(height_of(reached, edge.from), edge.weight);
    if height <= height_of(reached, edge.to) {
        return Ok(Relaxed::Same);
    }
    let path = path_of(reached, edge.from);
    if let Some(at) = leaving(path, edge.to) {
        return Ok(Relaxed::Closed(lengthened(alloc, edge, &path[..at + 1])?));
    }
    let path = lengthened(alloc, edge, path)?;
    put(
        reached,
        Reached {
            vertex: edge.to,
            height,
            path,
        },
    )?;
    Ok(Relaxed::Higher)
}

/// Relaxes each edge once.
fn relax_all(
    alloc: Global,
    edges: &[Edge],
    reached: &mut Vec<Reached>,
) -> Result<Relaxed, AllocError>
    requires edges { AreEdges edges.now }
    requires reached { IsReached edges.now reached.now.items }
    ensures { IfOk result (Relaxes edges.now reached.old.items reached.new.items) }
{
    let mut higher = false;
    for i in 0..edges.len() {
        match relax(alloc, edges[i], edges, reached)? {
            Relaxed::Same => {}
            Relaxed::Higher => higher = true,
            Relaxed::Closed(cycle) => return Ok(Relaxed::Closed(cycle)),
        }
    }
    if higher {
        return Ok(Relaxed::Higher);
    }
    Ok(Relaxed::Same)
}

/// A cycle of positive weight, or the vertices stand as high as the edges ask, where none was
/// reached before (Bellman's and Ford's method: Cormen, Leiserson, Rivest and Stein, "Introduction
/// to Algorithms", on difference constraints).
pub(crate) fn positive_cycle(
    alloc: Global,
    edges: &[Edge],
    reached: &mut Vec<Reached>,
) -> Result<Option<Vec<Edge>>, AllocError>
    requires edges { AreEdges edges.now }
    requires none { reached.now.items ≡ [] }
    ensures { IfOk result (EndsSearch edges.now reached.new.items) }
{
    loop {
        match relax_all(alloc, edges, reached)? {
            Relaxed::Same => return Ok(None),
            Relaxed::Higher => {}
            Relaxed::Closed(cycle) => return Ok(Some(cycle)),
        }
    }
}
