// What is lent and how far a load has come hold a state of the definition: the relation and its laws.
#![tactic(auto)]

// How far a load has come.
#[derive(Clone, Copy)]
pub struct Progress {
    // The offset.
    pub at: usize,
    // How much of each table and list is used.
    pub nodes: usize,
    pub references: usize,
    pub bytes: usize,
    pub symbols: usize,
    pub objects: usize,
    // Is all that was read in dump form?
    pub form: bool,
    // The bytes compared, where they are counted.
    pub compared: Option<usize>,
    // The words of the bucket table looked at.
    pub looked: usize,
    // How many nodes there is room for, which does not change.
    pub room: usize,
}
