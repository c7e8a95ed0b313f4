// A summary as a line of text.
ghost use Rattle.std.specs.Prelude.{◌++◌, Some, codes, decimal};

use super::census::Summary;
use std::fmt;

impl fmt::Display for Summary {
    ghost output = { λ s. Some (decimal s.routes ++ (codes " routes, " ++ (decimal s.nodes ++ (codes " nodes, " ++ (decimal s.leaves ++ (codes " leaves, " ++ (decimal s.vertices ++ codes " vertices"))))))) };

    fn fmt<W: fmt::Write>(&self, f: &mut fmt::Formatter<W>) -> fmt::Result {
        let Summary {
            routes,
            nodes,
            leaves,
            vertices,
        } = *self;
        write!(
            f,
            "{routes} routes, {nodes} nodes, {leaves} leaves, {vertices} vertices"
        )
    }
}
