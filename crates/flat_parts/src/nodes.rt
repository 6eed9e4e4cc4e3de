// Lists of nodes.
ghost use Rattle.std.specs.Prelude.{◌≡◌, ◌<◌, ◌-◌, ◌^◌, Some, length, map, min, sum_by, count_by, vec_len, vec_capacity};
ghost use Rattle.std.specs.List.{find};
ghost use Rattle.std.specs.Option.{option_copied, ForSome};
ghost use Rattle.std.specs.Str.{bytes_eq};
ghost use Rattle.ep_model.specs.Limits.{IsValue};
ghost use Rattle.flat_parts.specs.declared.data.NodeData.{NodeData};
ghost use Rattle.flat_parts.specs.declared.node.Node.{Node};
ghost use Rattle.flat_parts.specs.Nodes.{node_at, put_node, ejected, is_ejectable, node_blocks};
ghost use Rattle.flat_parts.specs.Flat.{node_data, nodes_data, place_of};

use crate::node::Node;
use ep_model::Meta;

/// The first node of a key.
pub(crate) fn node_of<'a>(nodes: &'a [Node], key: &[u8]) -> Option<&'a Node>
    ensures { option_copied result
        ≡ find (λ (node : Node). bytes_eq node.key.items key.now) nodes.now }
{
    nodes.iter().find(|node| node.key.as_slice() == key)
}

/// Where the first node of a key stands.
pub(crate) fn position_of(nodes: &[Node], key: &[u8]) -> Option<usize>
    ensures place { result ≡ place_of nodes.now key.now }
    ensures within { ForSome result (λ place. place < length nodes.now) }
{
    nodes.iter().position(|node| node.key.as_slice() == key)
}

/// Puts a node in place of the one of its key, or where there is none at the end, for which there is room.
pub(crate) fn put(nodes: &mut Vec<Node>, node: Node)
    requires { vec_len nodes.old < vec_capacity nodes.old }
    ensures { nodes_data nodes.new.items ≡ put_node (nodes_data nodes.old.items) (node_data node) }
{
    match position_of(nodes, &node.key) {
        Some(place) => nodes[place] = node,
        None => nodes.push_reserved(node),
    }
}

/// Puts a document in place of the one of its key, if it has a node.
pub(crate) fn restore(nodes: &mut Vec<Node>, key: &[u8], meta: Meta, value: Vec<u8>)
    requires { IsValue value.items }
    ensures { (node : NodeData) → node_at (nodes_data nodes.old.items) key.now ≡ Some node →
        nodes_data nodes.new.items ≡ put_node (nodes_data nodes.old.items)
        (record { key = key.now; meta = meta; value = Some value.items }) }
{
    if let Some(place) = position_of(nodes, key) {
        let node = &mut nodes[place];
        node.meta = meta;
        node.value = Some(value);
    }
}

/// Ejects all values that can be, and answers how many blocks are left, at most 2^64 - 1, and how many values were
/// ejected. All mutations up to `mark` are stored.
pub(crate) fn page(nodes: &mut Vec<Node>, mark: u64) -> (u64, u64)
    ensures nodes { nodes_data nodes.new.items ≡ map (ejected mark) (nodes_data nodes.old.items) }
    ensures used { result.0
        ≡ min (sum_by node_blocks (map (ejected mark) (nodes_data nodes.old.items))) (2 ^ 64 - 1) }
    ensures ejects { result.1 ≡ count_by (is_ejectable mark) (nodes_data nodes.old.items) }
{
    let mut used = 0u64;
    let mut ejects = 0;
    for index in 0..nodes.len() {
        let node = &mut nodes[index];
        ejects += u64::from(node.eject(mark));
        used = used.saturating_add(node.blocks() as u64);
    }
    (used, ejects)
}
