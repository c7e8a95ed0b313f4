// The laws of the pushed tree, of its leaves and shapes, of the ledger and of other graphs, as contracts: so a check asks for their proofs.
#![tactic(auto)]

ghost use Rattle.tree.specs.CountLaws.{CountLaws};
ghost use Rattle.tree.specs.Example.{Example};
ghost use Rattle.tree.specs.GraphLaws.{GraphLaws};
ghost use Rattle.tree.specs.HopLaws.{HopLaws};
ghost use Rattle.tree.specs.LeafLaws.{LeafLaws, MatchLaws};
ghost use Rattle.tree.specs.LedgerLaws.{LedgerLaws, RunLaws};
ghost use Rattle.tree.specs.ShapeLaws.{ShapeLaws};
ghost use Rattle.tree.specs.StoreLaws.{StoreLaws, EntryLaws};
ghost use Rattle.tree.specs.TreeLaws.{TreeLaws, ChangeLaws};

pub fn worked_example_stands()
    ensures { Example }
{}

// Where the tree branches, which nodes it has, and what a change does to it.
pub fn tree_laws_stand()
    ensures tree { TreeLaws }
    ensures change { ChangeLaws }
{}

// Each address has one leaf, and the leaf's hop is that of the address's longest match.
pub fn leaf_laws_stand()
    ensures leaf { LeafLaws }
    ensures found { MatchLaws }
{}

// No other graph has fewer vertices than there are different branching shapes.
pub fn graph_laws_stand()
    ensures { GraphLaws }
{}

// The branching shapes that a change brings lie on the path to its prefix.
pub fn shape_laws_stand()
    ensures { ShapeLaws }
{}

// What entering, re-hopping and striking a route do to each leaf's hop.
pub fn hop_laws_stand()
    ensures { HopLaws }
{}

// How many matched leaves a change leaves.
pub fn count_laws_stand()
    ensures { CountLaws }
{}

// The ledger stays sound, and a change is refused for the vertices exactly when they would not suffice.
pub fn ledger_laws_stand()
    ensures { LedgerLaws }
{}

// The law over runs holds of no calls, and one more call keeps it.
pub fn run_laws_stand()
    ensures { RunLaws }
{}

// What the two stores hold, and what a change does to each of their rows.
pub fn store_laws_stand()
    ensures store { StoreLaws }
    ensures entry { EntryLaws }
{}
