// What no contract of the table of vertices speaks of: that its calls cost by vertices, and not by the nodes of the trees.
#![tactic(auto)]

#[cfg(test)]
mod tests {
    use graph::{Edge, Table};
    use std::test::Fail;

    // A tree of 2^1000 leaves in 1,000 vertices: a sweep that entered a vertex once for each way to it would not end.
    #[test]
    fn much_is_stored_once(rt: HostRuntime) -> Result<(), Fail> {
        let mut table = Table::empty();
        let mut top = Edge::End;
        for _ in 0..1000 {
            top = table.fork(top, top)?;
        }
        table.keep_only(top);
        assert!(rt; table.count() == 1000);
        table.keep_only(Edge::End);
        assert!(rt; table.count() == 0);
        Ok(())
    }
}
