//! Whether values are the same.

ghost use Rattle.std.specs.Prelude.{◌≡◌, ◌↔◌, IsTrue};

use crate::children::Children;
use crate::nested::{Leaf, Nested, Node};

impl<L: Leaf> Nested<L> {
    /// Whether both hold the same leaves at the same places. It takes no memory.
    #[cycle(equal)]
    pub fn equal(&self, other: &Nested<L>) -> bool
        ensures { IsTrue result ↔ (self.now ≡ other.now) }
    {
        match &self.node {
            Node::Empty => other.is_empty(),
            Node::Leaf(leaf) => match &other.node {
                Node::Leaf(other) => leaf.equal(other),
                _ => false,
            },
            Node::Object(children) => match &other.node {
                Node::Object(others) => equal_children(children, others),
                _ => false,
            },
        }
    }
}

#[cycle(equal)]
fn equal_children<L: Leaf>(children: &Children<Nested<L>>, others: &Children<Nested<L>>) -> bool
    ensures { IsTrue result ↔ (children.now.entries ≡ others.now.entries) }
{
    let mut rest = others.iter();
    for (key, child) in children.iter() {
        let Some((other_key, other)) = rest.next() else {
            return false;
        };
        if key != other_key || !child.equal(other) {
            return false;
        }
    }
    rest.next().is_none()
}
