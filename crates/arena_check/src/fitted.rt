// An arena's tables and counts that fit into them.

ghost use Rattle.std.specs.Prelude.{◌*◌, ◌≤◌, length};
ghost use Rattle.definition.specs.Node.{width};
ghost use Rattle.definition.specs.Slice.{greatest_length};

#[derive(Clone, Copy)]
pub(crate) struct Fitted<'a> {
    pub(crate) nodes: &'a [u32],
    pub(crate) references: &'a [u32],
    pub(crate) count: usize,
    pub(crate) used: usize,
    pub(crate) stored: usize,
    ghost nodes_small: { length nodes.now ≤ greatest_length },
    ghost nodes_fit: { count * width ≤ length nodes.now },
    ghost references_fit: { used ≤ length references.now },
}
