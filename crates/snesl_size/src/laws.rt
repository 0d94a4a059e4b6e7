// What holds of all runs. The function does nothing: its contract is the theorem.

ghost use Rattle.snesl_size.specs.Staying.{EndedNetworksStay, EndingStays};

use flow_drives::runs_rest_alike;
use flow_nodes::StreamNode;
use snesl_flatten::network::one_network;

/// A program that ends at one capacity ends at each greater one, for each drive in steps: with the same value, the same states
/// of its nodes, and the same messages over each edge. Where all nodes have ended no edge keeps one waiting, however much it holds.
pub fn ending_stays()
    ensures networks { EndedNetworksStay }
    ensures reports { EndingStays }
{
    one_network();
    runs_rest_alike::<StreamNode>();
}
