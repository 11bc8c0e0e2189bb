//! Runs of equal edges as three lists: where each run begins, with which chunk, and its edge.
ghost use Rattle.std.specs.List.{sum};
ghost use Rattle.std.specs.Prelude.{◌≡◌, ◌≤◌, [], ◌∷◌, ◌++◌, IfOk, OnOk, length};
ghost use Rattle.zarrs_chunk_base.specs.Greatest.{greatest};
ghost use Rattle.zarrs_chunk_prepared.specs.seen.RunTable.{IsRunTable};
ghost use Rattle.zarrs_chunk_runs.specs.seen.RunEdges.{expanded, runs_of};

use std::alloc::{AllocError, Global};
use zarrs_chunk_runs::RunEdges;

/// Where each run begins, with which chunk, and its edge.
#[derive(Drop)]
pub(crate) struct RunTable {
    pub(crate) starts: Vec<u64>,
    pub(crate) chunks: Vec<u64>,
    pub(crate) edges: Vec<u64>,
}

impl RunTable {
    /// The table of some edges.
    ///
    /// # Errors
    /// Out of memory.
    pub(crate) fn new(alloc: Global, edges: &RunEdges) -> Result<RunTable, AllocError>
        requires { sum (expanded edges.now) ≤ greatest }
        ensures { IfOk result (λ table. IsRunTable (runs_of edges.now)
            (length (runs_of edges.now)) table.starts.items table.chunks.items table.edges.items) }
    {
        let mut table = RunTable {
            starts: Vec::with_capacity(alloc, edges.runs())?,
            chunks: Vec::with_capacity(alloc, edges.runs())?,
            edges: Vec::with_capacity(alloc, edges.runs())?,
        };
        let (mut start, mut chunk) = (0, 0);
        while let Some((edge, count)) = edges.run(table.starts.len()) {
            table.push(start, chunk, edge.get())?;
            start += edge.get() * count.get();
            chunk += count.get();
        }
        Ok(table)
    }

    /// One run more.
    ///
    /// # Errors
    /// Out of memory.
    fn push(&mut self, start: u64, chunk: u64, edge: u64) -> Result<(), AllocError>
        ensures starts { OnOk result (self.new.starts.items ≡ self.old.starts.items ++ start ∷ []) }
        ensures chunks { OnOk result (self.new.chunks.items ≡ self.old.chunks.items ++ chunk ∷ []) }
        ensures edges { OnOk result (self.new.edges.items ≡ self.old.edges.items ++ edge ∷ []) }
    {
        self.starts.push(start)?;
        self.chunks.push(chunk)?;
        self.edges.push(edge)?;
        Ok(())
    }
}
