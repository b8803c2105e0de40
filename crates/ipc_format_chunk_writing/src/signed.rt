//! What nodes state are signed numbers of eight bytes.
ghost use Rattle.std.specs.Prelude.{FitsSigned};
ghost use Rattle.std.specs.Int.{w64};
ghost use Rattle.ipc_format_batch_reading.specs.Placing.{AreSignedNodes, IsSignedNode};

use ipc_format_batch_reading::FieldNode;

/// Hands to a proof that a number is a signed one of eight bytes.
fn signed(number: i64)
    ensures { FitsSigned w64 number }
{}

/// Hands to a proof that what a node states are signed numbers of eight bytes.
fn is_node(node: &FieldNode)
    ensures { IsSignedNode node.now }
{
    signed(node.length);
    signed(node.null_count);
}

/// Hands to a proof that the numbers of nodes are signed ones of eight bytes.
pub(crate) fn are_nodes(nodes: &[FieldNode])
    ensures { AreSignedNodes nodes.now }
{
    for k in 0..nodes.len() {
        let node = &nodes[k];
        is_node(node);
    }
}
