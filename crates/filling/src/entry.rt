// An entry of a node, by its level and digit, and the set of the nodes that qualify for it.
ghost use Rattle.model.proofs.Filling.{EntryOf};
ghost use Rattle.consistency.specs.NodeSets.{Qualify};

#[derive(Clone, Copy)]
pub struct Entry<'a> {
    pub state: &'a [u64],
    pub node: usize,
    pub level: usize,
    pub digit: usize,
    pub qualified: u64,
    ghost place: { EntryOf state.now node level digit },
    ghost qualify: { Qualify state.now node level digit qualified },
}
